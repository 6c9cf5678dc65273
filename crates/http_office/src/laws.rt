//! Laws of the definitions.
ghost use Rattle.std.specs.Prelude.{◌≡◌, ◌++◌, ℕ, Bool, true, List, map};
ghost use Rattle.channel_view_model.specs.Centre.{Centre, Request};
ghost use Rattle.channel_view_model.specs.Rules.{KeepsRules};
ghost use Rattle.channel_view_model.specs.Store.{WhileClean};
ghost use Rattle.channel_view_laws.specs.Runs.{MayRemain};
ghost use Rattle.channel_view_laws.specs.Parts.{rows_part, requests_part, IsClosed};
ghost use Rattle.channel_view_model.specs.Solo.{purge};
ghost use Rattle.http_office_requests.specs.Piece.{IsPiece, Piece};
ghost use Rattle.http_office_requests.specs.Request.{Asked, request_of};
ghost use Rattle.http_office_answers.specs.Answer.{answer_bytes};
ghost use Rattle.http_office.specs.Message.{IsAskedBy, rows_left};
ghost use Rattle.http_office.specs.Stream.{IsCut};
ghost use Rattle.http_office.specs.Run.{HasAnswered, AnswersAll, rows_left_by};
ghost use Rattle.http_office.specs.Alone.{kept_commands, given_to, SeesAlike, OnBothGiven, in_doubt_behind};
ghost use Rattle.http_office.specs.Again.{given_asked, given_bytes};
ghost use Rattle.http_office_answers.specs.declared.answers.Answer.{Answer};

use crate::messages::answer;
use channel_view_model::RowStore;
use http_office_answers::Answer;
use std::alloc::Global;

/// Bytes begin with one piece at most, whatever follows it.
pub fn one_piece()
    ensures { (bytes front rest front' rest' : List ℕ) (p q : Piece) → front ++ rest ≡ bytes → front' ++ rest' ≡ bytes
        → IsPiece front p → IsPiece front' q → (front ≡ front') × (p ≡ q) }
{}

/// A stream is cut into pieces in one way.
pub fn one_cut()
    ensures { (stream rest rest' : List ℕ) (ps qs : List Piece) → IsCut stream ps rest → IsCut stream qs rest'
        → (ps ≡ qs) × (rest ≡ rest') }
{}

/// A message asks one thing.
pub fn one_request()
    ensures { (bytes : List ℕ) (a b : Asked) → IsAskedBy bytes a → IsAskedBy bytes b → a ≡ b }
{}

/// From the pieces of a stream those may be deleted that ask nothing of a channel, and those of channels that lend
/// nothing to one: what this one is given stays, byte for byte. Pieces answered `Unavailable` are none of either
/// stream's.
pub fn others_messages_deleted()
    ensures { (rows : Centre) → KeepsRules rows → (ps qs : List Piece) (xs ys : List Answer) (c : ℕ)
        → AnswersAll rows (map request_of ps) xs → AnswersAll rows (map request_of qs) ys
        → kept_commands (map request_of qs) ys ≡ purge c rows (kept_commands (map request_of ps) xs)
        → given_to c (map request_of ps) xs ≡ given_to c (map request_of qs) ys }
{}

/// Offices side by side over closed parts answer as one. One answers pieces over all rows, another over the rows of a
/// closed part, where its pieces ask what the part's channels ask among the first's. Each of these channels is given
/// the same by both, byte for byte, and the other leaves of the part's rows what the first leaves of them. Pieces
/// answered `Unavailable` are none of either's.
pub fn closed_parts_answer_as_one()
    ensures bytes { (rows : Centre) → KeepsRules rows → (mine : ℕ → Bool) (ps qs : List Piece) (xs ys : List Answer)
        → AnswersAll rows (map request_of ps) xs → AnswersAll (rows_part mine rows) (map request_of qs) ys
        → IsClosed mine rows (kept_commands (map request_of ps) xs)
        → kept_commands (map request_of qs) ys ≡ requests_part mine (kept_commands (map request_of ps) xs)
        → (c : ℕ) → mine c ≡ true → given_to c (map request_of ps) xs ≡ given_to c (map request_of qs) ys }
    ensures rows { (rows : Centre) → KeepsRules rows → (mine : ℕ → Bool) (ps qs : List Piece) (xs ys : List Answer)
        → AnswersAll rows (map request_of ps) xs → AnswersAll (rows_part mine rows) (map request_of qs) ys
        → IsClosed mine rows (kept_commands (map request_of ps) xs)
        → kept_commands (map request_of qs) ys ≡ requests_part mine (kept_commands (map request_of ps) xs)
        → rows_left_by (rows_part mine rows) (map request_of qs) ys
        ≡ rows_part mine (rows_left_by rows (map request_of ps) xs) }
{}

/// What a stop may leave of a store that answered messages: the rows after those that were given their answers, or
/// these with one command done whole that was answered `Unavailable` since the last one given that changed rows.
pub fn a_stop_leaves_whole_messages<S: RowStore>(_before: &S, _after: &S)
    ensures { (asked : List Asked) (answers : List Answer)
        → HasAnswered S.is_clean S.stands_for S.may_leave S.leaves_sets _before.now _after.now asked answers
        → WhileClean (S.is_clean _after.now) (S.stands_for _before.now) (λ rows. (in_doubt : List Request)
        → ((left : Centre) → S.may_leave _before.now left → MayRemain in_doubt rows left)
        → (left : Centre) → S.may_leave _after.now left
        → MayRemain (in_doubt_behind in_doubt rows asked answers) (rows_left_by rows asked answers) left) }
{}

/// Two stores, of whatever kinds, that stand for one set and are given the same messages in the same order give the
/// same bytes, and stand for one set afterwards. A message answered `Unavailable` did nothing, so one that is sent
/// until it is given its answer counts once, in whichever of the stores it had to be sent again.
pub fn stores_go_alike<S1: RowStore, S2: RowStore>(
    _before: &S1,
    _after: &S1,
    _other_before: &S2,
    _other_after: &S2,
)
    ensures bytes { (asked others : List Asked) (xs ys : List Answer)
        → HasAnswered S1.is_clean S1.stands_for S1.may_leave S1.leaves_sets _before.now _after.now asked xs
        → HasAnswered S2.is_clean S2.stands_for S2.may_leave S2.leaves_sets _other_before.now _other_after.now others ys
        → given_asked asked xs ≡ given_asked others ys
        → S1.is_clean _after.now → S2.is_clean _other_after.now
        → (rows : Centre) → S1.stands_for _before.now rows → S2.stands_for _other_before.now rows
        → given_bytes xs ≡ given_bytes ys }
    ensures rows { (asked others : List Asked) (xs ys : List Answer)
        → HasAnswered S1.is_clean S1.stands_for S1.may_leave S1.leaves_sets _before.now _after.now asked xs
        → HasAnswered S2.is_clean S2.stands_for S2.may_leave S2.leaves_sets _other_before.now _other_after.now others ys
        → given_asked asked xs ≡ given_asked others ys
        → S1.is_clean _after.now → S2.is_clean _other_after.now
        → (rows : Centre) → S1.stands_for _before.now rows → S2.stands_for _other_before.now rows
        → (left : Centre) × S1.stands_for _after.now left × S2.stands_for _other_after.now left }
{}

/// Two stores, of whatever kinds, that stand for sets that a channel sees alike give its message the same bytes, and it
/// sees the sets that they stand for afterwards alike.
pub fn stores_answer_alike<S1: RowStore, S2: RowStore>(
    alloc: Global,
    one: &mut S1,
    other: &mut S2,
    message: &[u8],
) -> (Answer, Answer)
    ensures clean { (S1.is_clean one.new → S1.is_clean one.old) × (S2.is_clean other.new → S2.is_clean other.old) }
    ensures rows { (a : Asked) → IsAskedBy message.now a → (S1.is_clean one.new → (rows : Centre) →
        S1.stands_for one.old rows → S1.stands_for one.new (rows_left rows a result.0))
        × (S2.is_clean other.new → (rows : Centre) →
        S2.stands_for other.old rows → S2.stands_for other.new (rows_left rows a result.1)) }
    ensures answers { S1.is_clean one.new → S2.is_clean other.new → (rows others : Centre) →
        S1.stands_for one.old rows → S2.stands_for other.old others → (a : Asked) → IsAskedBy message.now a →
        SeesAlike a rows others → OnBothGiven result.0 result.1 (answer_bytes result.0 ≡ answer_bytes result.1) }
    ensures views { S1.is_clean one.new → S2.is_clean other.new → (rows others : Centre) →
        S1.stands_for one.old rows → S2.stands_for other.old others → (a : Asked) → IsAskedBy message.now a →
        SeesAlike a rows others →
        OnBothGiven result.0 result.1 (SeesAlike a (rows_left rows a result.0) (rows_left others a result.1)) }
{
    (answer(alloc, one, message), answer(alloc, other, message))
}
