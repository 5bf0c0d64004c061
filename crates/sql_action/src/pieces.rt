//! The pieces of ALTER actions (PostgreSQL manual, ALTER TABLE, ALTER SEQUENCE, ALTER POLICY and ALTER TYPE).

ghost use Rattle.std.specs.Prelude.{◌≡◌, ◌≤◌, ◌+◌, ◌-◌, IfOk, length, map};
ghost use Rattle.std.specs.Option.{option_copied};
ghost use Rattle.sql_tree.specs.ActionPieces as spec;
ghost use Rattle.sql_tree.specs.Split.{chunks, uncons};

use sql_column::{
    Mark, Parts, begins_with, closing, column_type, make_room, nothing_kept, put, read_whole,
    span_of, terminals_before, type_len,
};
use sql_tree::actions::{
    ATTRIBUTE, COLUMN_OPTION, CONSTRAINT_OPTION, IDENTITY_OPTION, OTHER_OPTION, POLICY_PART,
    PieceList, PieceRows, SEQUENCE_OPTION,
};
use sql_tree::{ColType, Keyword, NoMemory, Piece, PieceKind, Symbol, Terminal};
use sqlite_items::Items;
use std::alloc::Global;
use std::marker::Model;

// ---- how long a piece is

fn is_word(symbol: Symbol) -> bool
    ensures { result ≡ spec.is_word_symbol symbol }
{
    matches!(symbol, Symbol::Keyword(_) | Symbol::Word)
}

/// NOT ENFORCED, NOT DEFERRABLE, or INITIALLY with a word after it.
#[tactic(auto, unfolding(sql_tree::specs::ActionPieces::is_pair))]
fn is_pair(first: Terminal, second: Terminal) -> bool
    ensures { result ≡ spec.is_pair first second }
{
    (first.is_keyword(Keyword::NOT)
        && (second.is_keyword(Keyword::ENFORCED) || second.is_keyword(Keyword::DEFERRABLE)))
        || (first.is_keyword(Keyword::INITIALLY) && is_word(second.symbol))
}

/// How many terminals the first option of a constraint has.
#[tactic(auto, unfolding(sql_tree::specs::ActionPieces::constraint_option_len))]
fn constraint_option_len(terminals: &[Terminal]) -> usize
    ensures value { result ≡ spec.constraint_option_len terminals.now }
    ensures within { result ≤ length terminals.now }
{
    match terminals {
        [first, second, ..] if is_pair(*first, *second) => 2,
        _ => closing(terminals),
    }
}

/// How many terminals the first piece has.
#[tactic(auto, unfolding(sql_tree::specs::ActionPieces::piece_len))]
fn piece_len(list: PieceList, terminals: &[Terminal]) -> usize
    ensures value { result ≡ spec.piece_len list terminals.now }
    ensures within { result ≤ length terminals.now }
{
    match list {
        PieceList::ConstraintOptions => constraint_option_len(terminals),
        PieceList::IdentityOptions => terminals_before(Mark::IdentityOption, terminals),
        PieceList::SequenceOptions => terminals_before(Mark::SequenceOption, terminals),
        PieceList::PolicyParts => terminals_before(Mark::PolicyPart, terminals),
    }
}

// ---- one piece

/// The type after SET TYPE.
#[tactic(auto, unfolding(sql_tree::specs::ActionPieces::type_in))]
fn type_in(kind: PieceKind, rest: &[Terminal]) -> Option<ColType>
    ensures { result ≡ spec.type_in kind rest.now }
{
    match kind {
        PieceKind::SetType => column_type(&rest[..type_len(rest)]),
        _ => None,
    }
}

/// Whether it is SET GENERATED ALWAYS.
#[tactic(auto, unfolding(sql_tree::specs::ActionPieces::is_always))]
fn is_always(kind: PieceKind, rest: &[Terminal]) -> bool
    ensures { result ≡ spec.is_always kind rest.now }
{
    match kind {
        PieceKind::SetGenerated => begins_with(Keyword::ALWAYS, rest),
        _ => false,
    }
}

/// The piece that these terminals are, by the first row that reads them all.
#[tactic(auto, unfolding(sql_tree::specs::ActionPieces::piece_by))]
fn piece_by(rows: PieceRows, terminals: &[Terminal]) -> Option<Piece>
    ensures { result ≡ spec.piece_by (map (λ r. (r.0, r.1.now)) rows.entry.now) terminals.now }
{
    let mut kept = nothing_kept();
    let (kind, rest) = read_whole(rows, &mut kept, terminals)?;
    let span = span_of(terminals);
    Some(Piece {
        kind,
        first: span.first,
        last: span.last,
        ty: type_in(kind, rest),
        always: is_always(kind, rest),
    })
}

// ---- lists of pieces

#[tactic(auto, unfolding(sql_tree::specs::ActionPieces::piece_rows))]
fn piece_rows(list: PieceList) -> PieceRows
    ensures { map (λ r. (r.0, r.1.now)) result.now ≡ spec.piece_rows list }
{
    match list {
        PieceList::ConstraintOptions => &CONSTRAINT_OPTION,
        PieceList::IdentityOptions => &IDENTITY_OPTION,
        PieceList::SequenceOptions => &SEQUENCE_OPTION,
        PieceList::PolicyParts => &POLICY_PART,
    }
}

fn at_least_one(count: usize) -> usize
    ensures { result ≡ count - 1 + 1 }
{
    if count == 0 { 1 } else { count }
}

/// The pieces of a list, one after another. Contracts see the list of those that are still to come.
#[derive(Drop)]
struct Pieces<'a> {
    list: PieceList,
    left: &'a [Terminal],
}

impl<'a> Model for Pieces<'a> {
    ghost use Rattle.std.specs.Prelude.{List};
    ghost use Rattle.sql_tree.specs.sql_token.declared.terminal.Terminal.{Terminal};
    ghost use Rattle.sql_tree.specs.ActionPieces.{piece_len};
    ghost use Rattle.sql_tree.specs.Split.{chunks};

    ghost Value = { List (List Terminal) };

    ghost view = { λ p. chunks (piece_len p.list) p.left.now };
}

impl<'a> Pieces<'a> {
    fn new(list: PieceList, left: &'a [Terminal]) -> Pieces<'a>
        ensures { result ≡ chunks (spec.piece_len list) left.now }
    {
        Pieces { list, left }
    }

    /// The next piece; `None` where none is left.
    #[tactic(auto, using(crate::proofs::Skips::first_piece))]
    fn next_piece(&mut self) -> Option<&'a [Terminal]>
        ensures { uncons self.old ≡ (option_copied result, self.new) }
    {
        if self.left.is_empty() {
            return None;
        }
        let count = piece_len(self.list, self.left);
        let end = at_least_one(count);
        let piece = &self.left[..count];
        self.left = &self.left[end..];
        Some(piece)
    }
}

/// The pieces of a list; `Ok(None)` where it does not begin with a piece, or one is none of its kind.
#[tactic(auto, unfolding(sql_tree::specs::ActionPieces::pieces_of))]
pub(crate) fn read_pieces(
    alloc: Global,
    list: PieceList,
    terminals: &[Terminal],
) -> Result<Option<Items<Piece>>, NoMemory>
    ensures { IfOk result (λ pieces. pieces ≡ spec.pieces_of list terminals.now) }
{
    let rows = piece_rows(list);
    let mut pieces = Vec::new(alloc);
    let mut parts = Pieces::new(list, terminals);
    while let Some(part) = parts.next_piece() {
        match piece_by(rows, part) {
            None => return Ok(None),
            Some(piece) => put(&mut pieces, piece)?,
        }
    }
    Ok(Some(Items::from_vec(pieces)))
}

/// The pieces of ALTER TYPE, between commas; `Ok(None)` where one is none.
#[tactic(auto, unfolding(sql_tree::specs::ActionPieces::attributes))]
pub(crate) fn read_attributes(
    alloc: Global,
    terminals: &[Terminal],
) -> Result<Option<Items<Piece>>, NoMemory>
    ensures { IfOk result (λ pieces. pieces ≡ spec.attributes terminals.now) }
{
    let mut pieces = Vec::new(alloc);
    let mut parts = Parts::new(Mark::Comma, terminals);
    while let Some(part) = parts.next_part() {
        make_room(&mut pieces, part, terminals)?;
        match piece_by(&ATTRIBUTE, part) {
            None => return Ok(None),
            Some(piece) => pieces.push(piece)?,
        }
    }
    Ok(Some(Items::from_vec(pieces)))
}

// ---- options of a column

fn alone(alloc: Global, piece: Option<Piece>) -> Result<Option<Items<Piece>>, NoMemory>
    ensures { IfOk result (λ pieces. pieces ≡ spec.alone piece) }
{
    match piece {
        None => Ok(None),
        Some(piece) => {
            let mut pieces = Vec::new(alloc);
            put(&mut pieces, piece)?;
            Ok(Some(Items::from_vec(pieces)))
        }
    }
}

#[tactic(auto, unfolding(sql_tree::specs::ActionPieces::one_option))]
fn read_one_option(alloc: Global, terminals: &[Terminal]) -> Result<Option<Items<Piece>>, NoMemory>
    ensures { IfOk result (λ pieces. pieces ≡ spec.one_option terminals.now) }
{
    alone(alloc, piece_by(&COLUMN_OPTION, terminals))
}

#[tactic(auto, unfolding(sql_tree::specs::ActionPieces::other_option))]
fn read_other_option(
    alloc: Global,
    terminals: &[Terminal],
) -> Result<Option<Items<Piece>>, NoMemory>
    ensures { IfOk result (λ pieces. pieces ≡ spec.other_option terminals.now) }
{
    alone(alloc, piece_by(&OTHER_OPTION, terminals))
}

/// The pieces of an option of a column: a listed option alone, options of an identity column, or some other one.
#[tactic(auto, unfolding(sql_tree::specs::ActionPieces::column_option))]
pub(crate) fn read_column_option(
    alloc: Global,
    terminals: &[Terminal],
) -> Result<Option<Items<Piece>>, NoMemory>
    ensures { IfOk result (λ pieces. pieces ≡ spec.column_option terminals.now) }
{
    if let Some(pieces) = read_one_option(alloc, terminals)? {
        return Ok(Some(pieces));
    }
    if let Some(pieces) = read_pieces(alloc, PieceList::IdentityOptions, terminals)? {
        return Ok(Some(pieces));
    }
    read_other_option(alloc, terminals)
}
