// How far a walk through the parts of a program is.
ghost use Rattle.std.specs.Prelude.{◌≡◌, ◌+◌, ◌^◌, ◌<◌, length};
ghost use Rattle.sts_syntax.specs.Programs.{class_member};
ghost use Rattle.sts_scope.specs.Entries as entry;
ghost use Rattle.sts_scope.specs.Handlers as h;
ghost use Rattle.typed_trees.specs.Sites.{naming};

use sts_base::Seq;
use sts_syntax::{Member, TypedStmt};
use typed_numbers::behind_member;
use typed_trees::{Builder, Plan};

/// The numbers of the next declaration and the next function.
#[derive(Clone, Copy)]
pub struct Next {
    pub declaration: usize,
    pub function: u32,
}

/// A class: its number, its members, and the numbers of the first declaration and the first function in them.
#[derive(Clone, Copy)]
pub struct ClassParts<'a> {
    pub class: u32,
    pub first: Next,
    pub members: &'a [Member],
}

/// What is built of a text: the statements of the main program, its locals and all functions, and which class and declaration come next.
#[derive(Drop)]
pub struct Whole {
    pub stmts: Seq<TypedStmt>,
    pub builder: Builder,
    pub class: u32,
    pub declaration: usize,
}

/// How many declarations a member is: a constructor is none.
fn declarations_in(plan: &Plan, class: u32, member: &Member) -> usize
    ensures { result ≡ length (entry.member_entry (naming plan.now) class (class_member member.now)) }
{
    match member {
        Member::Field(_) => 1,
        Member::Method { name: _, body: _ } => 1,
        Member::Constructor(_) => 0,
    }
}

/// Behind a member of a class.
pub fn next_member(plan: &Plan, class: u32, next: Next, member: &Member) -> Next
    requires declarations { next.declaration
        + length (entry.member_entry (naming plan.now) class (class_member member.now)) < 2 ^ 64 }
    requires functions { next.function + h.member_routines (class_member member.now) < 2 ^ 32 }
    ensures declaration { result.declaration
        ≡ next.declaration + length (entry.member_entry (naming plan.now) class (class_member member.now)) }
    ensures function { result.function ≡ next.function + h.member_routines (class_member member.now) }
{
    Next {
        declaration: next.declaration + declarations_in(plan, class, member),
        function: behind_member(member, next.function),
    }
}
