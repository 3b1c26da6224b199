// An entry kind, by its meaning: the empty entry, which givens are accepted, how an entry joins with an
// accepted given, and which entries are checked.
ghost use Rattle.std.specs.Prelude.{◌≡◌, Bool};
ghost use Rattle.entry.specs.Kinds.{taken};

pub trait Kind {
    // What a place of the book holds.
    type Held: Copy;

    // What a job gives a place.
    type Given: Copy;

    ghost empty: { Self.Held };

    ghost accepted: { Self.Given → Bool };

    ghost joined: { Self.Held → Self.Given → Self.Held };

    ghost checked: { Self.Held → Bool };

    fn empty_entry() -> Self::Held
        ensures { result ≡ empty };

    // Looks at the given alone.
    fn accepts(given: Self::Given) -> bool
        ensures { result ≡ accepted given };

    // A given that is not accepted leaves the entry as it is.
    fn join(entry: Self::Held, given: Self::Given) -> Self::Held
        ensures { result ≡ taken accepted joined entry given };

    fn is_checked(entry: Self::Held) -> bool
        ensures { result ≡ checked entry };
}
