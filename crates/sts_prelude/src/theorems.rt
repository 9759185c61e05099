// What the library's text spells.
ghost use Rattle.sts_prelude.specs.Spelled.{TextSpellsLibrary, TreeBecomesRoutines};

/// The tokens of the library's text spell the library's tree.
pub fn text_spells_library()
    ensures { TextSpellsLibrary }
{}

/// Names make the typed functions of the library of that tree.
pub fn tree_becomes_routines()
    ensures { TreeBecomesRoutines }
{}
