// Where the statements of functions and handlers begin.
ghost use Rattle.std.specs.Prelude.{◌≡◌, ◌++◌, [], ◌∷◌, IfOk, OnOk, None, false};
ghost use Rattle.sts_syntax.specs.Views.{parameters};
ghost use Rattle.sts_scope.specs.Places as name;
ghost use Rattle.sts_scope.specs.Values.{value_at};
ghost use Rattle.type_derive.specs.Nodes as node;
ghost use Rattle.type_derive.specs.Returns.{parameter_locals, within};
ghost use Rattle.type_derive.specs.Scopes.{place, naming};

use crate::context::Context;
use crate::locals::Locals;
use crate::scopes::Scope;
use std::alloc::Global;
use sts_base::NoMemory;
use sts_scope::{ByNumber, Local, StaticType, This, written_kind};
use sts_syntax::Param;

/// `this` in a handler.
fn hidden(this: This) -> This
    ensures { result ≡ name.hidden this }
{
    match this {
        This::Object(c) => This::Hidden(c),
        This::Hidden(c) => This::Hidden(c),
        This::Nowhere => This::Nowhere,
    }
}

/// Adds parameters.
fn add_parameters(classes: &ByNumber, locals: &mut Locals, params: &[Param]) -> Result<(), NoMemory>
    ensures { OnOk result (locals.new ≡ record locals.old {
      own = locals.old.own
          ++ parameter_locals (value_at classes.now.values.items) (parameters params.now);
    }) }
{
    for i in 0..params.len() {
        let kind = written_kind(classes, &params[i].shape);
        locals.push(Local {
            name: params[i].name,
            kind,
            fixed: false,
        })?;
    }
    Ok(())
}

/// Where a handler's statements begin, whose result is this.
pub fn handler_scope<'a>(
    context: &Context,
    scope: &'a Scope<'a>,
    params: &[Param],
    gives: Option<StaticType>,
) -> Result<Scope<'a>, NoMemory>
    ensures { IfOk result (λ s. place s ≡ node.handler_within (naming context.now) (place scope.now) (parameters params.now) gives) }
{
    let mut locals = scope.locals.inside(context.alloc)?;
    add_parameters(context.classes, &mut locals, params)?;
    locals.enter();
    Ok(Scope {
        locals,
        this: hidden(scope.this),
        gives,
        library: scope.library,
    })
}

/// Where the statements of a function begin.
pub fn routine_scope<'a>(
    alloc: Global,
    classes: &ByNumber,
    params: &[Param],
    this: This,
    gives: Option<StaticType>,
    library: bool,
) -> Result<Scope<'a>, NoMemory>
    ensures { IfOk result (λ s. place s ≡ within
        (parameter_locals (value_at classes.now.values.items) (parameters params.now)) this gives library) }
{
    let mut locals = Locals::new(alloc);
    add_parameters(classes, &mut locals, params)?;
    locals.enter();
    Ok(Scope {
        locals,
        this,
        gives,
        library,
    })
}

/// Outside all functions of the text.
pub fn outer_scope<'a>(alloc: Global, this: This) -> Scope<'a>
    ensures { place result ≡ name.outside this false None }
{
    Scope {
        locals: Locals::new(alloc),
        this,
        gives: None,
        library: false,
    }
}
