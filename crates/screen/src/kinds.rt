//! The kinds of terminals, types and path entries, by their numbers in a record.

ghost use Rattle.std.specs.Prelude.{◌≡◌};
ghost use Rattle.std.specs.Option.{ok_or};
ghost use Rattle.screen.specs.Kinds.{terminal_number, terminal_kind_of, type_number, type_kind_of, path_number, path_kind_of};
ghost use Rattle.screen.specs.declared.answer.Refusal.TheVariants.{Field};

use crate::answer::Refusal;

/// What a terminal is.
#[derive(Clone, Copy, Debug, PartialEq, Eq)]
pub enum TerminalKind {
    Break = 0,
    Continue = 1,
    Return = 2,
    Throw = 3,
    Switch = 4,
    DoWhile = 5,
    While = 6,
    For = 7,
    ForOf = 8,
    ForIn = 9,
    If = 10,
    Label = 11,
    Try = 12,
}

/// What a type is.
#[derive(Clone, Copy, Debug, PartialEq, Eq)]
pub enum TypeKind {
    Primitive = 0,
    Function = 1,
    Object = 2,
    Var = 3,
    Poly = 4,
    Phi = 5,
    Property = 6,
    ObjectMethod = 7,
}

/// What an entry of a path is.
#[derive(Clone, Copy, Debug, PartialEq, Eq)]
pub enum PathKind {
    Name = 0,
    Number = 1,
}

impl From<TerminalKind> for u16 {
    ghost from_gives = { λ kind n. n ≡ terminal_number kind };

    /// The number of a terminal's kind in its record.
    fn from(kind: TerminalKind) -> u16 {
        kind as u16
    }
}

impl TryFrom<u16> for TerminalKind {
    type Error = Refusal;

    ghost try_from_gives = { λ n kind. kind ≡ ok_or (terminal_kind_of n) Field };

    /// The kind of a terminal whose record has this number.
    fn try_from(number: u16) -> Result<TerminalKind, Refusal> {
        match number {
            0 => Ok(TerminalKind::Break),
            1 => Ok(TerminalKind::Continue),
            2 => Ok(TerminalKind::Return),
            3 => Ok(TerminalKind::Throw),
            4 => Ok(TerminalKind::Switch),
            5 => Ok(TerminalKind::DoWhile),
            6 => Ok(TerminalKind::While),
            7 => Ok(TerminalKind::For),
            8 => Ok(TerminalKind::ForOf),
            9 => Ok(TerminalKind::ForIn),
            10 => Ok(TerminalKind::If),
            11 => Ok(TerminalKind::Label),
            12 => Ok(TerminalKind::Try),
            _ => Err(Refusal::Field),
        }
    }
}

impl From<TypeKind> for u8 {
    ghost from_gives = { λ kind n. n ≡ type_number kind };

    /// The number of a type's kind in its record.
    fn from(kind: TypeKind) -> u8 {
        kind as u8
    }
}

impl TryFrom<u8> for TypeKind {
    type Error = Refusal;

    ghost try_from_gives = { λ n kind. kind ≡ ok_or (type_kind_of n) Field };

    /// The kind of a type whose record has this number.
    fn try_from(number: u8) -> Result<TypeKind, Refusal> {
        match number {
            0 => Ok(TypeKind::Primitive),
            1 => Ok(TypeKind::Function),
            2 => Ok(TypeKind::Object),
            3 => Ok(TypeKind::Var),
            4 => Ok(TypeKind::Poly),
            5 => Ok(TypeKind::Phi),
            6 => Ok(TypeKind::Property),
            7 => Ok(TypeKind::ObjectMethod),
            _ => Err(Refusal::Field),
        }
    }
}

impl From<PathKind> for u16 {
    ghost from_gives = { λ kind n. n ≡ path_number kind };

    /// The number of a path entry's kind in its record.
    fn from(kind: PathKind) -> u16 {
        kind as u16
    }
}

impl TryFrom<u16> for PathKind {
    type Error = Refusal;

    ghost try_from_gives = { λ n kind. kind ≡ ok_or (path_kind_of n) Field };

    /// The kind of a path entry whose record has this number.
    fn try_from(number: u16) -> Result<PathKind, Refusal> {
        match number {
            0 => Ok(PathKind::Name),
            1 => Ok(PathKind::Number),
            _ => Err(Refusal::Field),
        }
    }
}
