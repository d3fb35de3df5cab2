//! Answers at a part of a list, and how they are put in order.
ghost use Rattle.std.specs.Prelude.{◌≡◌, ◌⊎◌, ◌≤◌, ◌++◌, [], IfOk, IsOkAnd, All, length, take, drop, ◌-◌};
ghost use Rattle.std.specs.List.{AllZip};
ghost use Rattle.std.specs.Fn.{FnReturnsAt};
ghost use Rattle.indicatif.specs.Inside.PartAnswers.{AnswersPart};

use crate::parallel::claims::Claim;
use std::alloc::{AllocError, Global};

/// The answers at a part of a list.
#[derive(Drop)]
pub struct PartAnswers<A> {
    /// The place of the part's first item.
    pub start: usize,
    /// The place behind its last item.
    pub end: usize,
    /// The answers at its items.
    pub answers: Vec<A>,
}

impl<A: Drop> PartAnswers<A> {
    /// The answers of `f` at a part.
    pub fn at<T, F: Fn(&T) -> A>(
        alloc: Global,
        items: &[T],
        part: &Claim,
        f: &F,
    ) -> Result<PartAnswers<A>, AllocError>
        requires callable { F.IsAlwaysCallable f.now }
        requires within { part.now.end ≤ length items.now }
        ensures { IfOk result (λ piece. AnswersPart (FnReturnsAt F.Fn f.now) items.now piece) }
    {
        let answers = answers_of(alloc, &items[part.start..part.end], f)?;
        Ok(PartAnswers {
            start: part.start,
            end: part.end,
            answers,
        })
    }

    /// Puts the answers after those at all items before this place, if they are next; the place after them.
    fn put_behind(self, made: &mut Vec<A>, place: usize) -> Result<usize, AllocError>
        ensures { IfOk result (λ end. ((end ≡ place) × (made.new.items ≡ made.old.items))
            ⊎ ((self.start ≡ place) × (self.end ≡ end) × (made.new.items ≡ made.old.items ++ self.answers.items))) }
    {
        let PartAnswers {
            start,
            end,
            answers,
        } = self;
        if start != place {
            return Ok(place);
        }
        let mut answers = answers;
        made.append(&mut answers)?;
        Ok(end)
    }
}

/// The answers of `f` at these items of a part.
pub fn answers_of<T, A: Drop, F: Fn(&T) -> A>(
    alloc: Global,
    items: &[T],
    f: &F,
) -> Result<Vec<A>, AllocError>
    requires { F.IsAlwaysCallable f.now }
    ensures { IfOk result (λ made. AllZip (FnReturnsAt F.Fn f.now) items.now made.items) }
{
    let mut made = Vec::with_capacity(alloc, items.len())?;
    for item in items {
        made.push_reserved(f(item));
    }
    Ok(made)
}

/// The answers of two threads together, the first one's in front.
pub fn together<X: Drop>(
    first: Result<Vec<X>, AllocError>,
    second: Result<Vec<X>, AllocError>,
) -> Result<Vec<X>, AllocError>
    ensures { IfOk result (λ made. IsOkAnd first (λ front. IsOkAnd second (λ back. made.items ≡ front.items ++ back.items))) }
{
    let mut made = first?;
    let mut rest = second?;
    made.append(&mut rest)?;
    Ok(made)
}

/// The answers of parts in the list's order, in memory that was taken before. Threads that took each part once have left none out. Any that
/// is missing at the end is computed here.
pub fn in_order<T, A: Drop, F: Fn(&T) -> A>(
    alloc: Global,
    room: Vec<A>,
    items: &[T],
    pieces: Vec<PartAnswers<A>>,
    f: &F,
) -> Result<Vec<A>, AllocError>
    requires callable { F.IsAlwaysCallable f.now }
    requires empty { room.items ≡ [] }
    requires pieces { All (AnswersPart (FnReturnsAt F.Fn f.now) items.now) pieces.items }
    ensures { IfOk result (λ made. AllZip (FnReturnsAt F.Fn f.now) items.now made.items) }
{
    let mut pieces = pieces;
    pieces.sort_unstable_by_key(|piece: &PartAnswers<A>| -> usize { piece.start });
    let mut made = room;
    let mut place = 0;
    for piece in pieces {
        place = piece.put_behind(&mut made, place)?;
    }
    let mut rest = answers_of(alloc, &items[place..], f)?;
    made.append(&mut rest)?;
    Ok(made)
}
