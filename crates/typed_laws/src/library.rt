//! Laws of the library.
ghost use Rattle.typed_laws.specs.LibraryLaws.{LibraryFunctionsHaveTypes, LibraryIsRead, LibraryLeavesFirst, PreludeIsLibrary, TypedLibraryIsLight};

use sts_grammar::one_program;

/// The library of the prelude is of functions alone, formed and without a failure, and each row of the board's table that is a function of the library
/// is one of it that takes and gives the same; whatever text stands behind it, where its names and its text stand first in the tables.
pub fn prelude_is_library()
    ensures { PreludeIsLibrary }
{}

/// Where no entry stood before the library, it leaves the tables with its names and its text, and its tree is the one that its tokens spell.
pub fn library_leaves_first()
    ensures { LibraryLeavesFirst }
{
    one_program();
}

/// The library is there: where no entry stood before it, its text has tokens, which spell a tree.
pub fn library_is_read()
    ensures { LibraryIsRead }
{}

/// The library's typed functions weigh at most 600, whatever text stands behind it.
pub fn typed_library_is_light()
    ensures { TypedLibraryIsLight }
{}

/// The library's functions have types, whatever text stands behind it.
pub fn library_functions_have_types()
    ensures { LibraryFunctionsHaveTypes }
{}
