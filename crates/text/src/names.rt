//! The kinds that a record's line names.

ghost use Rattle.std.specs.Prelude.{◌≡◌};
ghost use Rattle.std.specs.List.{position, slice_get};
ghost use Rattle.std.specs.Str.{bytes_eq};

use std::fmt;

/// The names of some kinds, each at the place of its kind's number. They are a table and no enum: a record holds any number, also one of
/// no kind, and from one list each number has its name, each name its number, and a line that has none of them is told all.
#[derive(Clone, Copy, Debug, PartialEq, Eq)]
pub struct Kinds {
    /// What goes before the names where all are told.
    pub title: &'static str,
    pub names: &'static [&'static str],
}

/// The kinds of types, by p of a type.
pub const TYPES: Kinds = Kinds {
    title: "",
    names: &[
        "primitive",
        "function",
        "object",
        "var",
        "poly",
        "phi",
        "property",
        "objectMethod",
    ],
};

/// The kinds of path entries, by q of a path entry.
pub const PATHS: Kinds = Kinds {
    title: "",
    names: &["name", "number"],
};

/// The kinds of values, by p of a value.
pub const VALUES: Kinds = Kinds {
    title: "a kind of value, as ",
    names: &[
        "other",
        "binary",
        "computedLoad",
        "jsxText",
        "loadGlobal",
        "loadLocal",
        "primitive",
        "propertyLoad",
        "template",
        "unary",
        "storeConst",
        "storeLocal",
        "logical",
        "conditional",
        "sequence",
        "optional",
        "inner",
    ],
};

/// What Open opens, by its p.
pub const NODES: Kinds = Kinds {
    title: "",
    names: &["terminal", "arm", "scope", "pruned"],
};

/// The kinds of terminals, by q of an Open.
pub const TERMINALS: Kinds = Kinds {
    title: "",
    names: &[
        "break", "continue", "return", "throw", "switch", "doWhile", "while", "for", "forOf",
        "forIn", "if", "label", "try",
    ],
};

/// The rules of Merge, by its p.
pub const RULES: Kinds = Kinds {
    title: "",
    names: &["list", "both"],
};

impl Kinds {
    /// The number of the kind of this name.
    pub fn number(self, name: &str) -> Option<usize>
        ensures { result ≡ position (λ known. bytes_eq known.now name.now) self.names.now }
    {
        self.names.iter().position(|known| *known == name)
    }

    /// The name of the kind of this number.
    pub fn name(self, number: u16) -> Option<&'static str>
        ensures { result ≡ slice_get self.names.now number }
    {
        self.names.get(usize::from(number)).copied()
    }
}

impl fmt::Display for Kinds {
    fn fmt<W: fmt::Write>(&self, f: &mut fmt::Formatter<W>) -> fmt::Result {
        f.write_str(self.title)?;
        if let [first, middle @ .., last] = self.names {
            f.write_str(first)?;
            for name in middle {
                write!(f, ", {name}")?;
            }
            write!(f, " or {last}")?;
        }
        Ok(())
    }
}
