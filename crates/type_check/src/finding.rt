// The first failure of a text behind its headings.
ghost use Rattle.sts_syntax.specs.Programs.{program};
ghost use Rattle.sts_scope.specs.Failures.{Finds};
ghost use Rattle.sts_scope.specs.Values.{value_at};
ghost use Rattle.text_headings.specs.Standing.{IsTextDeclared};
ghost use Rattle.type_check.specs.Texts.{type_failure};

use crate::overrides::check_all_overrides;
use crate::passes::check_nodes;
use std::alloc::Global;
use sts_base::{Refused, Tables};
use sts_scope::Declared;
use sts_syntax::Unit;
use type_derive::Context;

/// The first failure of overriding methods, then of nodes, in a text whose declarations stand behind the library's.
pub fn find_failure(
    alloc: Global,
    text: &Unit,
    tables: &Tables,
    declared: &Declared,
) -> Result<(), Refused>
    requires { IsTextDeclared (program text.now) declared.now }
    ensures { Finds result (type_failure tables.now
        (value_at declared.now.classes.values.items) declared.now.known declared.now.first_class (program text.now)) }
{
    let context = Context {
        alloc,
        tables,
        classes: &declared.classes,
        known: &declared.known,
    };
    let first = declared.known.library();
    let items = text.items.as_slice();
    check_all_overrides(&context, first, items)?;
    check_nodes(&context, first, items)
}
