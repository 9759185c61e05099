// Which declaration a name stands for.
ghost use Rattle.std.specs.Prelude.{◌≡◌, length, take};
ghost use Rattle.sts_scope.specs.Lookup as look;
ghost use Rattle.sts_scope.specs.Bases.{is_endless};
ghost use Rattle.sts_scope.specs.Rules as rule;
ghost use Rattle.sts_scope.specs.Globals.{is_dollar};

use crate::{ClassHead, DeclarationKind, Entry, StaticType};
use sts_base::Tables;

/// Whether a name begins with `$`.
pub fn is_dollar(tables: &Tables, x: u32) -> bool
    ensures { result ≡ is_dollar tables.now.names x }
{
    match tables.names.get(x as usize) {
        None => false,
        Some(bytes) => match bytes.as_slice() {
            [] => false,
            [first, ..] => *first == b'$',
        },
    }
}

/// Whether a name is spelled so.
#[tactic(auto, using(sts_syntax::proofs::Laws::same_bytes_is))]
pub fn is_spelled(tables: &Tables, x: u32, bytes: &[u8]) -> bool
    ensures { result ≡ rule.is_spelled tables.now.names x bytes.now }
{
    match tables.names.get(x as usize) {
        None => false,
        Some(these) => these.as_slice() == bytes,
    }
}

/// The base of a class.
pub fn base_of(classes: &[ClassHead], c: usize) -> Option<u32>
    ensures { result ≡ look.base_of classes.now c }
{
    match classes.get(c) {
        None => None,
        Some(class) => class.base,
    }
}

/// What a declaration is.
pub fn sort_of(entries: &[Entry], d: usize) -> Option<DeclarationKind>
    ensures { result ≡ look.sort_of entries.now d }
{
    match entries.get(d) {
        None => None,
        Some(e) => Some(e.sort),
    }
}

/// Whether it is a field.
pub fn is_field(sort: Option<DeclarationKind>) -> bool
    ensures { result ≡ look.is_field sort }
{
    match sort {
        None => false,
        Some(DeclarationKind::Field) => true,
        Some(DeclarationKind::Method) => false,
        Some(DeclarationKind::Function) => false,
        Some(DeclarationKind::Class(_)) => false,
        Some(DeclarationKind::Global { fixed: _ }) => false,
    }
}

/// Whether the chain of a class's bases has no end.
pub fn is_endless(classes: &[ClassHead], c: usize) -> bool
    ensures { result ≡ is_endless classes.now c }
{
    let mut at = c;
    for _ in 0..classes.len() {
        match base_of(classes, at) {
            None => return false,
            Some(b) => at = b as usize,
        }
    }
    true
}

/// Whether a class is another, or one of its bases is, up to so many.
#[tactic(auto, unfolding(crate::specs::Rules::reaches))]
pub fn reaches(classes: &[ClassHead], m: u32, n: u32) -> bool
    ensures { result ≡ rule.reaches classes.now (length classes.now) m n }
{
    let mut at = m;
    for _ in 0..classes.len() {
        if at == n {
            return true;
        }
        match base_of(classes, at as usize) {
            None => return false,
            Some(b) => at = b,
        }
    }
    at == n
}

/// What the nearest written constructor of a class takes.
pub fn maker_takes(classes: &[ClassHead], c: u32) -> &[StaticType]
    ensures { result.now ≡ rule.maker_takes_of classes.now c }
{
    let mut at = c;
    for _ in 0..classes.len() {
        match classes.get(at as usize) {
            None => return &[],
            Some(class) => match &class.takes {
                Some(takes) => return takes.as_slice(),
                None => match class.base {
                    None => return &[],
                    Some(b) => at = b,
                },
            },
        }
    }
    &[]
}
