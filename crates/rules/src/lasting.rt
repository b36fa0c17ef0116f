//! Which types are lasting by themselves.

ghost use Rattle.std.specs.Prelude.{◌≡◌, ◌==◌};
ghost use Rattle.screen.specs.Lasting.{built_in, lasting_built_in};

use screen::TypeKind;

/// Whether the kind of a lent row is that of an Object. A host may lend any number, and each has an answer: so it is a number here and in every rule, and no `TypeKind`.
pub fn is_object(kind: u8) -> bool
    ensures { result ≡ (kind == 2) }
{
    kind == u8::from(TypeKind::Object)
}

/// Whether a shape is one of the four built in. 0 is no shape, and those above 4 are the host's own.
fn is_built_in(shape: u32) -> bool
    ensures { result ≡ built_in shape }
{
    matches!(shape, 1..=4)
}

/// Whether a type is lasting with no shape of the host's own: a Function, or an Object of a built-in shape. A number that is no kind is not lasting.
pub fn is_always_invalidating_type(kind: u8, shape: u32) -> bool
    ensures { result ≡ lasting_built_in kind shape }
{
    match TypeKind::try_from(kind) {
        Ok(TypeKind::Function) => true,
        Ok(TypeKind::Object) => is_built_in(shape),
        _ => false,
    }
}
