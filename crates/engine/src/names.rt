//! The names of an answer's columns.
ghost use Rattle.std.specs.Prelude.{◌≡◌, ◌<◌, [], length, get_or, IsUtf8};
ghost use Rattle.engine.specs.Views.{names_view};

/// The names of an answer's columns, in order. Those that are always the same needn't be made for each answer:
///
/// ```rust
/// fields: Names::Lent(&["name", "age"]),
/// ```
#[derive(Debug, Drop)]
pub enum Names {
    /// Constants.
    Lent(&'static [&'static str]),
    /// The answer's own.
    Own(Vec<String>),
}

impl Names {
    /// No names. Takes no memory.
    pub fn none() -> Names
        ensures { names_view result ≡ [] }
    {
        Names::Lent(&[])
    }

    /// How many there are.
    pub fn count(&self) -> usize
        ensures { result ≡ length (names_view self.now) }
    {
        match self {
            Names::Lent(names) => names.len(),
            Names::Own(names) => names.len(),
        }
    }

    /// Lends the name at a place, from 0.
    pub fn get(&self, place: usize) -> &str
        requires { place < length (names_view self.now) }
        ensures name { result.now ≡ get_or (names_view self.now) place [] }
        ensures text { IsUtf8 result.now }
    {
        match self {
            Names::Lent(names) => names.get(place).unwrap(),
            Names::Own(names) => names[place].as_str(),
        }
    }
}
