//! A walk over two ascending lists of pairs, side by side, which merges them into a store.
ghost use Rattle.std.specs.Prelude.{⊤, ◌≡◌, ◌+◌, ◌<◌, ◌≤◌, ℕ, List, [], ◌∷◌, ◌++◌, length, slice_get, Some, option_map};
ghost use Rattle.std.specs.Map.Iter.{deref_pair};
ghost use Rattle.litemap_store.specs.{RisesByAtMost, Rising};
ghost use Rattle.litemap_store.specs.Steps.{ComparesFirsts, IsTakenFirst, Walks};

use crate::into_iter::PairIntoIter;
use crate::reserved::push_reserved;
use crate::store::{Count, StoreMut};
use std::cmp::Ordering;
use std::marker::Model;
use std::mem;

/// Which of two pairs with equal keys stays in a merge, and what is displaced.
pub(crate) trait Choice<K, V> {
    /// The pair that stays, of an old and a new one.
    ghost kept: { K × V → K × V → K × V };

    /// What is displaced then.
    ghost gone: { K × V → K × V → List (K × V) };

    /// What was displaced so far.
    ghost displaced: { Self → List (K × V) };

    /// Whether what is displaced needs room, and how much there is.
    ghost needs_room: { Type 0 };

    ghost room: { Self → ℕ };

    /// Returns the pair that stays, of an old and a new one with equal keys.
    fn choose(&mut self, key: K, value: V, new_key: K, new_value: V) -> (K, V)
        requires { needs_room → 0 < room self.old }
        ensures kept { result ≡ kept (key, value) (new_key, new_value) }
        ensures displaced { displaced self.new ≡ displaced self.old ++ gone (key, value) (new_key, new_value) }
        ensures room { room self.old ≤ room self.new + 1 };
}

/// Merges the pairs of two iterators into a store that has room for them, by at most one comparison for each. Each pair moves
/// once.
pub(crate) fn walk<
    K: Ord + Drop,
    V: Drop,
    S: StoreMut<K, V>,
    I: PairIntoIter<K, V>,
    J: PairIntoIter<K, V>,
    C: Choice<K, V>,
>(store: &mut S, olds: I, news: J, choice: &mut C, count: &mut Count)
    requires olds { Rising K.cmp (I.owned olds) }
    requires news { Rising K.cmp (J.owned news) }
    requires empty { (S.pairs store.old ≡ []) × (C.displaced choice.old ≡ []) }
    requires room { length (I.owned olds) + length (J.owned news) ≤ S.room store.old }
    requires choice_room { C.needs_room → length (J.owned news) ≤ C.room choice.old }
    ensures walks { Walks K.cmp C.kept C.gone (I.owned olds) (J.owned news) (S.pairs store.new) (C.displaced choice.new) }
    ensures cost { RisesByAtMost (length (I.owned olds) + length (J.owned news)) count.old count.new }
{
    let mut olds = Peekable::new(olds);
    let mut news = Peekable::new(news);
    while let Some(order) = compare_firsts(&olds, &news, count) {
        let (key, value) = take_lower(&mut olds, &mut news, choice, order);
        push_reserved(store, key, value);
    }
}

// How the first old key compares with the first new one. A side that has run out counts as greater; `None` if both have.
fn compare_firsts<K: Ord, V, I: PairIntoIter<K, V>, J: PairIntoIter<K, V>>(
    olds: &Peekable<K, V, I>,
    news: &Peekable<K, V, J>,
    count: &mut Count,
) -> Option<Ordering>
    requires olds { Rising K.cmp olds.now }
    requires news { Rising K.cmp news.now }
    ensures lower { ComparesFirsts K.cmp olds.now news.now result }
    ensures cost { RisesByAtMost 1 count.old count.new }
    ensures none { length olds.now + length news.now ≡ 0 → RisesByAtMost 0 count.old count.new }
{
    let Some((old, _)) = olds.peek() else {
        return news.peek().is_some().then_some(Ordering::Greater);
    };
    let Some((new, _)) = news.peek() else {
        return Some(Ordering::Less);
    };
    Some(count.cmp(old, new))
}

// Takes the pair of the lower key; of equal keys the one that is chosen.
fn take_lower<K: Ord, V, I: PairIntoIter<K, V>, J: PairIntoIter<K, V>, C: Choice<K, V>>(
    olds: &mut Peekable<K, V, I>,
    news: &mut Peekable<K, V, J>,
    choice: &mut C,
    order: Ordering,
) -> (K, V)
    requires olds { Rising K.cmp olds.old }
    requires news { Rising K.cmp news.old }
    requires order { ComparesFirsts K.cmp olds.old news.old (Some order) }
    requires room { C.needs_room → length news.old ≤ C.room choice.old }
    ensures taken { (out : List (K × V)) × IsTakenFirst K.cmp C.kept C.gone olds.old news.old olds.new news.new result out
        × (C.displaced choice.new ≡ C.displaced choice.old ++ out) }
    ensures room { C.needs_room → length news.new ≤ C.room choice.new }
{
    match order {
        Ordering::Less => olds.take_first(),
        Ordering::Greater => news.take_first(),
        Ordering::Equal => {
            let (key, value) = olds.take_first();
            let (new_key, new_value) = news.take_first();
            choice.choose(key, value, new_key, new_value)
        }
    }
}

// The pairs that an iterator has still to yield, of which the first can be looked at. A contract sees their list.
#[derive(Drop)]
struct Peekable<K, V, I: PairIntoIter<K, V>> {
    first: Option<(K, V)>,
    others: I,
}

impl<K, V, I: PairIntoIter<K, V>> Model for Peekable<K, V, I> {
    ghost use Rattle.std.specs.Prelude.{◌≡◌, List, [], IfNone};
    ghost use Rattle.std.specs.List.{cons_option};

    ghost Value = { List (K × V) };

    ghost view = { λ c. cons_option c.first (I.owned c.others) };

    ghost invariant = { λ c. IfNone c.first (I.owned c.others ≡ []) };
}

impl<K, V, I: PairIntoIter<K, V>> Peekable<K, V, I> {
    fn new(mut others: I) -> Self
        ensures { result ≡ I.owned others }
    {
        let first = others.next();
        Peekable { first, others }
    }

    fn peek(&self) -> Option<(&K, &V)>
        ensures { option_map deref_pair result ≡ slice_get self.now 0 }
    {
        let (key, value) = self.first.as_ref()?;
        Some((key, value))
    }

    fn take_first(&mut self) -> (K, V)
        requires { 0 < length self.old }
        ensures { self.old ≡ result ∷ self.new }
    {
        let next = self.others.next();
        mem::replace(&mut self.first, next).unwrap()
    }
}
