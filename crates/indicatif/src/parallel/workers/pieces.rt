//! Pieces of work, of which each thread takes the next.
ghost use Rattle.std.specs.Prelude.{◌≡◌, ◌<◌, ◌+◌, ◌%◌, ◌^◌, ◌++◌, ◌∷◌, [], length, IfOk, IfSome, IsSomeAnd, All};
ghost use Rattle.std.specs.Fn.{FnReturnsAt};
ghost use Rattle.indicatif.specs.Inside.Pieces.{IsEnded, IsGathered, CountsPieces};

use crate::parallel::claims::Claims;
use crate::parallel::part_answers::answers_of;
use crate::parallel::workers::Gate;
use crate::parallel::workers::crew::Work;
use std::alloc::{AllocError, Global};

/// The result of a piece.
#[derive(Drop)]
pub struct EndedPiece<A> {
    /// Its number, from 0.
    pub piece: usize,
    /// Its answers, unless it got no memory for them.
    pub answers: Option<Vec<A>>,
}

/// Pieces, of which each thread takes the next that is left.
#[derive(Drop)]
pub struct PieceQueue<'a, T, F, G> {
    /// The allocator of the answers.
    pub alloc: Global,
    /// The pieces.
    pub pieces: &'a [Vec<T>],
    /// Which of them are taken.
    pub claims: Claims,
    /// The function that gives an item's answer.
    pub f: &'a F,
    /// What each piece passes before its first item.
    pub gate: &'a G,
}

impl<'a, T: Sync, A: Send + Drop, F: Fn(&T) -> A + Sync, G: Gate> Work for PieceQueue<'a, T, F, G> {
    type Item = EndedPiece<A>;

    ghost can_work = { λ w. F.IsAlwaysCallable w.f.now × (w.claims.items ≡ length w.pieces.now) };

    ghost gives = { λ w e. IsEnded (FnReturnsAt F.Fn w.f.now) w.pieces.now e };

    fn work(&self, room: Vec<EndedPiece<A>>) -> Result<Vec<EndedPiece<A>>, AllocError>
        requires can { F.IsAlwaysCallable self.now.f.now × (self.now.claims.items ≡ length self.now.pieces.now) }
        requires empty { room.items ≡ [] }
        ensures { IfOk result (λ made. All (IsEnded (FnReturnsAt F.Fn self.now.f.now) self.now.pieces.now) made.items) }
    {
        let mut made = room;
        for _ in 0..self.pieces.len() {
            let Some(piece) = self.claims.take_one() else {
                break;
            };
            self.gate.pass(piece);
            made.push(ended_at(self.alloc, self.pieces, piece, self.f))?;
        }
        Ok(made)
    }
}

// The result of the piece with this number.
fn ended_at<T, A: Drop, F: Fn(&T) -> A>(
    alloc: Global,
    pieces: &[Vec<T>],
    piece: usize,
    f: &F,
) -> EndedPiece<A>
    requires callable { F.IsAlwaysCallable f.now }
    requires within { piece < length pieces.now }
    ensures { IsEnded (FnReturnsAt F.Fn f.now) pieces.now result }
{
    let answers = answers_of(alloc, pieces[piece].as_slice(), f).ok();
    EndedPiece { piece, answers }
}

/// The results of the first pieces.
#[derive(Drop)]
pub struct Gathered<A> {
    /// The number of these pieces.
    pub pieces: usize,
    /// Their answers, unless one of them has none.
    pub answers: Option<Vec<Vec<A>>>,
    /// The number of items that were met, modulo 2^64.
    pub met: u64,
}

impl<A: Drop> Gathered<A> {
    // With the answers of the next piece.
    fn with(self, more: Vec<A>) -> Gathered<A>
        requires room { self.pieces + 1 < 2 ^ 64 }
        ensures pieces { result.pieces ≡ self.pieces + 1 }
        ensures met { result.met ≡ (self.met + length more.items) % 2 ^ 64 }
        ensures answers { IfSome result.answers (λ made. IsSomeAnd self.answers (λ before. made.items ≡ before.items ++ more ∷ [])) }
    {
        let met = self.met.wrapping_add(more.len() as u64);
        Gathered {
            pieces: self.pieces + 1,
            answers: with_answers(self.answers, more),
            met,
        }
    }
}

// The answers of one piece more.
fn with_answers<A: Drop>(all: Option<Vec<Vec<A>>>, more: Vec<A>) -> Option<Vec<Vec<A>>>
    ensures { IfSome result (λ made. IsSomeAnd all (λ before. made.items ≡ before.items ++ more ∷ [])) }
{
    let mut all = all?;
    all.push(more).ok()?;
    Some(all)
}

impl<'a, T, A: Drop, F: Fn(&T) -> A, G> PieceQueue<'a, T, F, G> {
    // What the pieces came to, with what became of one more. One that isn't the next leaves the answers incomplete.
    fn gathered_with(&self, before: Gathered<A>, ended: EndedPiece<A>) -> Gathered<A>
        requires before { IsGathered (FnReturnsAt F.Fn self.now.f.now) self.now.pieces.now before }
        requires ended { IsEnded (FnReturnsAt F.Fn self.now.f.now) self.now.pieces.now ended }
        requires room { length self.now.pieces.now < 2 ^ 64 }
        ensures { IsGathered (FnReturnsAt F.Fn self.now.f.now) self.now.pieces.now result }
    {
        let EndedPiece { piece, answers } = ended;
        if piece != before.pieces {
            return Gathered {
                answers: None,
                ..before
            };
        }
        match answers {
            Some(more) => before.with(more),
            None => Gathered {
                pieces: before.pieces + 1,
                answers: None,
                met: before.met,
            },
        }
    }

    /// The answers in the order of the pieces, in memory that was taken before, unless a piece has none; and the number of items that were
    /// met.
    pub fn in_order(
        &self,
        ended: Vec<EndedPiece<A>>,
        room: Vec<Vec<A>>,
    ) -> (Option<Vec<Vec<A>>>, u64)
        requires ended { All (IsEnded (FnReturnsAt F.Fn self.now.f.now) self.now.pieces.now) ended.items }
        requires room { room.items ≡ [] }
        ensures { CountsPieces (FnReturnsAt F.Fn self.now.f.now) self.now.pieces.now result.0 result.1 }
    {
        let count = self.pieces.len();
        let mut ended = ended;
        ended.sort_unstable_by_key(|e: &EndedPiece<A>| -> usize { e.piece });
        let mut all = Gathered {
            pieces: 0,
            answers: Some(room),
            met: 0,
        };
        for e in ended {
            all = self.gathered_with(all, e);
        }
        if all.pieces < count {
            return (None, all.met);
        }
        (all.answers, all.met)
    }
}
