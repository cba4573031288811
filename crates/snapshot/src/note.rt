//! A value as it once was, for contracts alone. The kit's `Snapshot` says as much, but a type with one in it isn't known to be `Send`.
ghost use Rattle.std.specs.Prelude.{◌≡◌, [], ◌∷◌};

use logbook::{Opening, Rule, Seen, Start};

/// The rule of a book in which one value stands, from the beginning on.
pub struct Notes;

impl<T> Rule<T, u64> for Notes {
    ghost use Rattle.std.specs.Prelude.{[]};
    ghost use base.Fml.{ftrue};

    ghost holds = { λ cells log. Unit {0} };

    ghost first = { [] };

    ghost hinted = { λ n log. Unit {0} };

    ghost shows = { λ log. [] };

    ghost keeps = { λ names log. ftrue };

    ghost moves = { λ ask before after answer. Unit {0} };
}

impl<T> Opening<T, T> for Notes {
    ghost use Rattle.std.specs.Prelude.{[], ◌∷◌};

    ghost log = { λ words value. value ∷ [] };
}

/// A value that was noted: it is the log.
pub type Noted<T> = Seen<T, u64, Notes>;

// Notes a value as it is now.
pub(crate) fn note_of<T>(value: &T) -> Noted<T>
    ensures { result.log ≡ value.now ∷ [] }
{
    let (noted, _words) = Noted::<T>::open_row::<T, Notes>(value, Start::alone(), 0);
    noted
}
