// The next session of a keeper.
ghost use Rattle.std.specs.Prelude.{◌≡◌, [], IfOk, IfErr, IfSome};
ghost use Rattle.book_core.specs.Books.{Keeps};
ghost use Rattle.book_core.specs.Starts.{FailsAt, is_failed_start};
ghost use Rattle.session_chain.specs.Chains.{Begins};
ghost use Rattle.session_chain.specs.Served.{NextFails};

use book_core::{Book, StartFault};
use book_rules::{Entry, Limits};
use keeper_core::Keeper;
use std::alloc::Global;

/// Closes a book, and starts the next one over its keeper: with no entry, with no policy remembered, and not closing. The history
/// of the one that was closed is handed back.
///
/// # Errors
///
/// Hands the keeper back where the next book does not start, with the causes of [`Book::start`]; but [`StartFault::BadStore`] comes of no
/// keeper that tells its tables.
pub fn next_session<K: Keeper>(
    alloc: Global,
    book: Book<K>,
    limits: Limits,
) -> (Vec<Entry>, Result<Book<K>, (K, StartFault)>)
    ensures history { result.0.items ≡ book.history }

    // The keeper has the tables of the history, where it tells them, and the next book begins with these.
    ensures keeps { Keeps book.base book.history (K.facts book.keeper) }
    ensures begun { IfOk result.1 (λ next. Begins limits book.base book.history (K.facts book.keeper) next.base) }
    ensures empty { IfOk result.1 (λ next. next.history ≡ []) }
    ensures keeper { IfOk result.1 (λ next. K.facts next.keeper ≡ next.base.start) }

    // A refusal has its cause, which is no bad row where the keeper tells its tables, and leaves the tables.
    ensures refused { IfErr result.1 (λ e. NextFails (K.facts book.keeper) e.1 (K.facts e.0)) }
    ensures tables { IfErr result.1 (λ e. (K.facts e.0).tables ≡ (K.facts book.keeper).tables) }
    ensures staged { IfErr result.1 (λ e. (K.facts e.0).staged ≡ []) }
    ensures planned { FailsAt (K.facts book.keeper).planned (is_failed_start result.1) }
{
    let (keeper, _, history) = book.close();
    (history, Book::start(alloc, keeper, limits))
}
