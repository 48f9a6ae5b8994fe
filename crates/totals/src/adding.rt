// What is added up: masses, each of one substance, and what holds several of them; and the one loop that adds up the rows of a kind.
ghost use Rattle.std.specs.Prelude.{◌≡◌, ℕ, ◌+◌, ◌*◌, ◌^◌, ◌<◌, ◌≤◌, List};
ghost use Rattle.form.specs.Layout.{kinds, layout, row_at};
ghost use Rattle.form.specs.Verdict.{rows, Formed};
ghost use Rattle.std.proofs.Common.{arith};
ghost use Rattle.wide.specs.Numbers.{value, Is};
ghost use Rattle.totals.specs.RowSums.{RowAt, added_up};

use form::{Counts, count_of, first_block, row_start};
use wide::{Wide, add, of};

// A mass of one substance, or a count of periods: its number in two words. It is added to its own substance alone.
pub trait Mass: Copy {
    ghost amount: { Self → ℕ };

    ghost of_amount: { ℕ → Self };

    fn words(self) -> Wide
        ensures { value result ≡ amount self };

    fn of_words(words: Wide) -> Self
        ensures { (n : ℕ) → Is words n → result ≡ of_amount n };

    fn of_word(word: u64) -> Self
        ensures { result ≡ of_amount word }
    {
        Self::of_words(of(word))
    }

    ghost amounts: { (n : ℕ) → amount (of_amount n) ≡ n };
}

// What rows add up to: at first nothing, and then each row's part more.
pub trait AddsUp: Copy {
    ghost none: { Self };

    ghost both: { Self → Self → Self };

    // Each of its numbers is at most so much.
    ghost Most: { ℕ → Self → Type 0 };

    // The two have room to be added.
    ghost Fit: { Self → Self → Type 0 };

    // How much a row's part may be.
    ghost row_most: { ℕ };

    fn nothing() -> Self
        ensures { result ≡ none };

    fn plus(self, other: Self) -> Self
        requires { Fit self other }
        ensures { result ≡ both self other };

    ghost most_none: { Most 0 none };

    ghost most_both: { (m n : ℕ) (a b : Self) → Most m a → Most n b → Most (m + n) (both a b) };

    ghost fit: { (m : ℕ) (a b : Self) → m ≤ 32 * row_most → Most m a → Most row_most b → Fit a b };
}

impl<M: Mass> AddsUp for M {
    ghost none = { M.of_amount 0 };

    ghost both = { λ a b. M.of_amount (M.amount a + M.amount b) };

    ghost Most = { λ n a. M.amount a ≤ n };

    ghost Fit = { λ a b. M.amount a + M.amount b < 2 ^ 120 };

    ghost row_most = { 2 ^ 110 };

    ghost most_none = { omega (arith, M.amounts 0) };

    ghost most_both = { λ m n a b p q. omega (arith, M.amounts (M.amount a + M.amount b)) };

    ghost fit = { λ m a b l p q. omega arith };

    fn nothing() -> M {
        M::of_word(0)
    }

    fn plus(self, other: M) -> M {
        M::of_words(add(self.words(), other.words()))
    }
}

// The rows of a kind added up, each by what is made of it.
pub fn sum_rows<T: AddsUp, F: Fn(usize) -> T>(bytes: &[u8], c: Counts, kind: usize, row: F) -> T
    requires formed { Formed bytes.now c }
    requires known { (1 ≤ kind) × (kind ≤ kinds) }
    requires callable { (at : ℕ) → RowAt kind bytes.now at → F.pre row at }
    requires small { (at : ℕ) (t : T) → RowAt kind bytes.now at → F.post row at t → T.Most T.row_most t }
    ensures { (part : List ℕ → T) → ((at : ℕ) (t : T) → RowAt kind bytes.now at → F.post row at t → t ≡ part (row_at (layout kind) bytes.now at)) → result ≡ added_up T.none T.both part (rows kind bytes.now) }
{
    let first = first_block(c, kind);
    let n = count_of(c, kind) as usize;
    let mut t = T::nothing();
    for i in 0..n {
        t = t.plus(row(row_start(first, i)));
    }
    t
}
