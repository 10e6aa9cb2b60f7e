//! Joins of left batches with one right batch.
ghost use Rattle.std.specs.Prelude.{◌≡◌, ◌≤◌, ◌<◌, ◌+◌, ◌-◌, ◌++◌, ℕ, Bool, true, false, not, List, [], ◌∷◌, All, map, take, drop, length, get_or, string_bytes, slice_index_or, Some, None, IfOk, IsOk, OnOk};
ghost use Rattle.std.specs.List.{position_or_len};
ghost use Rattle.indexmap.specs.IndexSet.{insert_key};
ghost use Rattle.fq_column.specs.Frame.{Fields, Frame, IsFrame, Name, Row, has_name};
ghost use Rattle.fq_column.specs.Lists.{keep as kept, numbers};
ghost use Rattle.fq_column.specs.declared.cells.Cell.{Cell as Value};
ghost use Rattle.fq_column.specs.Stream.{then_stream, rename_fault};
ghost use Rattle.fq_ops.specs.Group.{same_key};
ghost use Rattle.fq_ops.specs.Grouping.{replaced, key_at};
ghost use Rattle.fq_ops.specs.Join.{AreKeys, join_schema as judged_join, joined_fields, join_rows};
ghost use Rattle.fq_ops.specs.KeySets.{IsWholeAt};
ghost use Rattle.fq_ops.specs.PlainJoin.{plain_fields, plain_how, plain_join};
ghost use Rattle.fq_ops.specs.Picks.{Pick, columns_of, picks_from};
ghost use Rattle.fq_ops.specs.Pairs.{IsIndex, Pair, can_match, join_picks, left_value, matches_of, pairs_of, right_value};
ghost use Rattle.fq_ops.specs.Probing.{GivesPart, GoesOn, IsCountOf, IsCursor, IsPartOf, IsProbeOf};

use crate::field_lists::positions;
use crate::key_sets::{KeySet, Mostly, RowKey, is_whole_key};
use crate::output_schemas::{contains, join_schema};
use crate::pairs::Pairs;
use crate::probes::{Cursor, Next, Part, Probe, Rest};
use fq_column::{Batch, Column, Memory, Piece, StepFault, copy_strings};
use smallvec::SmallVec;
use std::alloc::Global;
use std::marker::Model;

/// Laws of joins, for all schemas, names and rows.
///
/// If a join is not refused, its keys are as [`JoinTable::build`] requires, and its columns those of the definition.
/// A join of left rows that come in two parts is the join of the first part and then, if no fault ends it, that of the
/// second with the room that is left. An inner or a left join whose nulls are not equal is the plain one.
pub fn join_laws()
    ensures keys { (how : How) (left right : Fields) (on : List Name) → IsOk (judged_join how left right on) → AreKeys right on }
    ensures fields { (how : How) (left right : Fields) (on : List Name) → IsOk (judged_join how left right on) → judged_join how left right on ≡ Ok (joined_fields how left right on) }
    ensures parts { (how : How) (nulls_equal : Bool) (left right : Fields) (on : List Name) (rows : List Row) (room : ℕ) (ls more : List Row) →
        let u = join_rows how nulls_equal left right on rows room ls in
        join_rows how nulls_equal left right on rows room (ls ++ more) ≡ then_stream u (rename_fault (λ p. length ls + p) (join_rows how nulls_equal left right on rows (room - length u.rows) more)) }
    ensures plain_columns { (keeps_all : Bool) (left right : Fields) (on : List Name) → joined_fields (plain_how keeps_all) left right on ≡ plain_fields left right on }
    ensures plain_rows { (keeps_all : Bool) (left right : Fields) (on : List Name) (rows : List Row) (room : ℕ) (ls : List Row) →
        join_rows (plain_how keeps_all) false left right on rows room ls ≡ plain_join left right on keeps_all rows room ls }
{}

/// What a left row gives, by its matches among the right rows (Polars, `how` of `join`).
#[derive(Clone, Copy, Debug, PartialEq, Eq)]
pub enum How {
    /// A row with each match.
    Inner,
    /// A row with each match, and without one a row with nulls on the right.
    Left,
    /// Itself, once, if there is a match.
    Semi,
    /// Itself, if there is no match.
    Anti,
}

/// The rows that a left batch gives, up to the left row whose output would pass the room, and that row's place.
pub type Probed = Piece<usize>;

// The places of the rows of a key; up to two need no allocation.
#[derive(Drop)]
struct Places {
    places: SmallVec<usize, 2>,
}

impl Model for Places {
    ghost use Rattle.std.specs.Prelude.{List, ℕ};

    ghost Value = { List ℕ };

    ghost view = { λ p. p.places.items };
}

impl Places {
    fn new(alloc: Global) -> Places
        ensures { result ≡ [] }
    {
        Places {
            places: SmallVec::new(alloc),
        }
    }

    fn push(&mut self, place: usize) -> Result<(), Memory>
        ensures { OnOk result (self.new ≡ self.old ++ place ∷ []) }
    {
        self.places.push(place)?;
        Ok(())
    }

    fn as_slice(&self) -> &[usize]
        ensures { result.now ≡ self.now }
    {
        self.places.as_slice()
    }
}

/// The right side of a join: its rows, and the places of the rows of each key that can match.
#[derive(Drop)]
pub struct JoinTable {
    right: Batch,
    on: Vec<String>,
    nulls_equal: bool,
    seen: KeySet,
    groups: Vec<Places>,
}

impl Model for JoinTable {
    ghost use Rattle.fq_ops.specs.Table.{Table};

    ghost Value = { Table };

    ghost use Rattle.std.specs.Prelude.{map, string_bytes};
    ghost use Rattle.fq_ops.specs.Indexed.{IsIndexed};

    ghost view = { λ t. record { fields = t.right.fields; rows = t.right.rows; on = map string_bytes t.on.items; nulls_equal = t.nulls_equal } };

    ghost invariant = { λ t. IsIndexed t.right (map string_bytes t.on.items) t.nulls_equal t.seen t.groups.items };
}

impl JoinTable {
    /// The table of a right batch, whose rows are found by their values in the columns of these names, which are distinct
    /// columns of the batch, at least one. A null matches a null if `nulls_equal` is true (Polars, `nulls_equal`), and
    /// otherwise nothing. Copies the batch and the names; see [`JoinTable::build_from`].
    pub fn build(
        alloc: Global,
        right: &Batch,
        on: &[String],
        nulls_equal: bool,
    ) -> Result<JoinTable, Memory>
        requires { AreKeys right.now.fields (map string_bytes on.now) }
        ensures { IfOk result (λ t. t ≡ record { fields = right.now.fields; rows = right.now.rows; on = map string_bytes on.now; nulls_equal = nulls_equal }) }
    {
        let right = right.copy(alloc)?;
        let on = copy_strings(alloc, on)?;
        JoinTable::build_from(alloc, right, on, nulls_equal)
    }

    /// The table of a right batch, which it keeps with no copy: a copy of each row's key and one lookup, with room for as many
    /// keys as rows. If an allocation fails, nothing is handed back.
    pub fn build_from(
        alloc: Global,
        right: Batch,
        on: Vec<String>,
        nulls_equal: bool,
    ) -> Result<JoinTable, Memory>
        requires { AreKeys right.fields (map string_bytes on.items) }
        ensures { IfOk result (λ t. t ≡ record { fields = right.fields; rows = right.rows; on = map string_bytes on.items; nulls_equal = nulls_equal }) }
    {
        let (schema, names) = (right.schema(), on.as_slice());
        let places = positions(alloc, schema, names)?;
        let is_whole = is_whole_key(schema, names);
        let mut seen = KeySet::with_capacity(alloc, is_whole, right.rows())?;
        let mut groups = Vec::with_capacity(alloc, right.rows())?;
        index_rows(
            alloc,
            &mut seen,
            &mut groups,
            places.as_slice(),
            &right,
            nulls_equal,
        )?;
        Ok(JoinTable {
            right,
            on,
            nulls_equal,
            seen,
            groups,
        })
    }

    /// The rows that the left rows give in turn, each with its matches in the order of the right rows, as far as `room`
    /// rows go. Stops before the first left row whose output would pass the room, and names it. `Memory` also where the rows are
    /// more than `usize` counts; see [`JoinTable::probe_part`].
    ///
    /// One lookup for each left row; then whole columns are gathered. Where no left row gives two, the left values are moved.
    pub fn probe(&self, alloc: Global, left: Batch, how: How, room: u64) -> Result<Probed, Memory>
        requires { IsOk (judged_join how left.fields self.now.fields self.now.on) }
        ensures fields { IfOk result (λ p. p.batch.fields ≡ joined_fields how left.fields self.now.fields self.now.on) }
        ensures rows { let u = join_rows how self.now.nulls_equal left.fields self.now.fields self.now.on self.now.rows room left.rows in
            IfOk result (λ p. p.batch.rows ≡ u.rows) }
        ensures fault { let u = join_rows how self.now.nulls_equal left.fields self.now.fields self.now.on self.now.rows room left.rows in
            IfOk result (λ p. p.fault ≡ u.fault) }
    {
        let Part { batch, rest } = self.probe_part(alloc, Probe::new(left, how, room), usize::MAX)?;
        match rest {
            Rest::End(fault) => Ok(Piece { batch, fault }),
            Rest::More(_) => Err(Memory),
        }
    }

    /// The next rows that left rows give, `most` of them or fewer at the end, and what comes after them: the rest of the left rows, or the
    /// end.
    ///
    /// So the memory of an output is bounded, whatever the matches. One lookup for each left row, and one more for each part that
    /// begins within the output of one.
    pub fn probe_part(&self, alloc: Global, probe: Probe, most: usize) -> Result<Part, Memory>
        requires { IsProbeOf self.now probe }
        ensures fields { IfOk result (λ p. p.batch.fields ≡ joined_fields probe.how probe.left.fields self.now.fields self.now.on) }
        ensures few { IfOk result (λ p. IsPartOf most (length p.batch.rows) p.rest) }
        ensures rows { IfOk result (λ p. GivesPart self.now probe p.batch.rows p.rest) }
    {
        let Probe { left, how, from } = probe;
        let on = self.on.as_slice();
        let schema = match join_schema(alloc, left.schema(), self.right.schema(), on, how) {
            Ok(schema) => schema,
            Err(StepFault::Memory) => return Err(Memory),
            Err(_) => unreachable!(),
        };
        let places = positions(alloc, left.schema(), on)?;
        let places = places.as_slice();
        let (pairs, next) = next_pairs(
            alloc,
            &self.seen,
            &self.groups,
            places,
            &left,
            how,
            from,
            most,
        )?;
        match next {
            Next::At(from) => {
                let columns = gather_left(alloc, &left, &pairs)?;
                let columns = gather_taken(alloc, &self.right, on, how, &pairs, columns)?;
                Ok(Part {
                    batch: Batch::new(schema, columns),
                    rest: Rest::More(Probe { left, how, from }),
                })
            }
            Next::End(fault) => {
                let columns = take_left(alloc, left, &pairs)?;
                let columns = gather_taken(alloc, &self.right, on, how, &pairs, columns)?;
                Ok(Part {
                    batch: Batch::new(schema, columns),
                    rest: Rest::End(fault),
                })
            }
        }
    }
}

// The left columns of pairs of rows: moved if no row stands in two pairs and they come in their order, and otherwise copied.
fn take_left(alloc: Global, mut left: Batch, pairs: &Pairs) -> Result<Vec<Column>, Memory>
    ensures { IfOk result (λ columns. columns.items ≡ columns_of (picks_from (λ _. true) (left_value left.rows) 0 left.fields) pairs.now) }
{
    let Some(marks) = pairs.left_marks(alloc, left.rows())? else {
        return gather_left(alloc, &left, pairs);
    };
    keep_rows(&mut left, marks.as_slice(), pairs.left().len());
    let (_, columns) = left.into_parts();
    Ok(columns)
}

// Keeps the rows of a batch that are marked, which are so many.
fn keep_rows(batch: &mut Batch, marks: &[bool], count: usize)
    requires marks { length marks.now ≡ length batch.old.rows }
    requires count { length (kept marks.now batch.old.rows) ≡ count }
    ensures { batch.new ≡ record batch.old { rows = kept marks.now batch.old.rows } }
{
    if count < marks.len() {
        batch.keep(marks);
    }
}

// Copies of the left columns of pairs of rows.
fn gather_left(alloc: Global, left: &Batch, pairs: &Pairs) -> Result<Vec<Column>, Memory>
    ensures { IfOk result (λ columns. columns.items ≡ columns_of (picks_from (λ _. true) (left_value left.now.rows) 0 left.now.fields) pairs.now) }
{
    let mut columns = Vec::new(alloc);
    for i in 0..left.schema().len() {
        columns.push(left.column(i).gather(alloc, pairs.left())?)?;
    }
    Ok(columns)
}

// The right columns of pairs of rows that the output takes, after the left ones.
fn gather_taken(
    alloc: Global,
    right: &Batch,
    on: &[String],
    how: How,
    pairs: &Pairs,
    left: Vec<Column>,
) -> Result<Vec<Column>, Memory>
    ensures { IfOk result (λ columns. (batch : Frame) → left.items ≡ columns_of (picks_from (λ _. true) (left_value batch.rows) 0 batch.fields) pairs.now →
        columns.items ≡ columns_of (join_picks how batch right.now (map string_bytes on.now)) pairs.now) }
{
    match how {
        How::Inner | How::Left => gather_right(alloc, right, on, pairs, left),
        How::Semi | How::Anti => Ok(left),
    }
}

// The right columns of pairs of rows that are not keys, after these columns.
fn gather_right(
    alloc: Global,
    right: &Batch,
    on: &[String],
    pairs: &Pairs,
    mut columns: Vec<Column>,
) -> Result<Vec<Column>, Memory>
    ensures { IfOk result (λ all. (picks : List (Pick Pair)) → columns.items ≡ columns_of picks pairs.now →
        all.items ≡ columns_of (picks ++ picks_from (λ n. not (has_name (map string_bytes on.now) n)) (right_value right.now.rows) 0 right.now.fields) pairs.now) }
{
    for i in 0..right.schema().len() {
        if !contains(on, right.schema().name(i)) {
            columns.push(right.column(i).gather_optional(alloc, pairs.right())?)?;
        }
    }
    Ok(columns)
}

// Notes the places of the rows of a batch by their keys, if these can match.
fn index_rows(
    alloc: Global,
    seen: &mut KeySet,
    groups: &mut Vec<Places>,
    on: &[usize],
    right: &Batch,
    nulls_equal: bool,
) -> Result<(), Memory>
    requires empty { (seen.old.keys ≡ []) × (groups.old.items ≡ []) }
    requires some { 1 ≤ length on.now }
    requires places { All (λ p. p < length right.now.fields) on.now }
    requires whole { seen.old.is_whole ≡ true → IsWholeAt right.now.fields on.now }
    ensures whole { seen.new.is_whole ≡ seen.old.is_whole }
    ensures beside { OnOk result (length groups.new.items ≡ length seen.new.keys) }
    ensures frame { OnOk result (IsFrame right.now) }
    ensures index { OnOk result (IsIndex nulls_equal (λ n. key_at on.now (slice_index_or right.now.rows n [])) (length right.now.rows) seen.new.keys groups.new.items) }
{
    let mut key = RowKey::nulls(alloc, seen.is_whole(), on.len())?;
    for row in 0..right.rows() {
        key.read(alloc, right, on, row)?;
        if may_match(&key, nulls_equal) {
            add_place(alloc, seen, groups, &key, row)?;
        }
    }
    Ok(())
}

// Whether a key can match any key.
fn may_match(key: &RowKey, nulls_equal: bool) -> bool
    ensures { result ≡ can_match nulls_equal key.now.cells }
{
    nulls_equal || !key.has_null()
}

// Adds a place to those of its key.
fn add_place(
    alloc: Global,
    seen: &mut KeySet,
    groups: &mut Vec<Places>,
    key: &RowKey,
    row: usize,
) -> Result<(), Memory>
    requires beside { length groups.old.items ≡ length seen.old.keys }
    requires whole { key.now.is_whole ≡ seen.old.is_whole }
    ensures whole { seen.new.is_whole ≡ seen.old.is_whole }
    ensures seen { OnOk result (seen.new.keys ≡ insert_key same_key seen.old.keys key.now.cells) }
    ensures groups { OnOk result (let i = position_or_len (same_key key.now.cells) seen.old.keys in
        groups.new.items ≡ replaced i (get_or groups.old.items i [] ++ row ∷ []) groups.old.items) }
    ensures beside { OnOk result (length groups.new.items ≡ length seen.new.keys) }
{
    let i = seen.number_of(alloc, key, Mostly::New)?;
    if i == groups.len() {
        groups.push(Places::new(alloc))?;
    }
    let group = &mut groups[i];
    group.push(row)
}

// The places of the rows that match a key.
fn places_of<'a>(seen: &KeySet, groups: &'a Vec<Places>, key: &RowKey) -> &'a [usize]
    requires beside { length groups.now.items ≡ length seen.now.keys }
    requires whole { key.now.is_whole ≡ seen.now.is_whole }
    ensures { (nulls_equal : Bool) (key_at_place : ℕ → List Value) (count : ℕ) → IsIndex nulls_equal key_at_place count seen.now.keys groups.now.items →
        result.now ≡ matches_of nulls_equal key_at_place count key.now.cells }
{
    match seen.find(key) {
        Some(i) => groups[i].as_slice(),
        None => &[],
    }
}

// How many pairs a left row gives.
fn count_pairs(how: How, left: usize, matches: &[usize]) -> usize
    ensures { result ≡ length (pairs_of how left matches.now) }
{
    if matches.is_empty() {
        return match how {
            How::Inner | How::Semi => 0,
            How::Left | How::Anti => 1,
        };
    }
    match how {
        How::Inner | How::Left => matches.len(),
        How::Semi => 1,
        How::Anti => 0,
    }
}

// Appends the pairs of a left row after the first few that were given, at most so many.
fn push_pairs(
    pairs: &mut Pairs,
    how: How,
    left: usize,
    matches: &[usize],
    given: usize,
    most: usize,
) -> Result<(), Memory>
    ensures { OnOk result (pairs.new ≡ pairs.old ++ take most (drop given (pairs_of how left matches.now))) }
{
    let count = count_pairs(how, left, matches);
    let first = given.min(count);
    let last = first + most.min(count - first);
    if first == last {
        return Ok(());
    }
    match how {
        How::Inner | How::Left if matches.is_empty() => pairs.push(left, None),
        How::Inner | How::Left => push_matches(pairs, left, &matches[first..last]),
        How::Semi | How::Anti => pairs.push(left, None),
    }
}

// Appends a left row with each of its matches.
fn push_matches(pairs: &mut Pairs, left: usize, matches: &[usize]) -> Result<(), Memory>
    ensures { OnOk result (pairs.new ≡ pairs.old ++ map (λ r. (left, Some r)) matches.now) }
{
    for right in matches {
        pairs.push(left, Some(*right))?;
    }
    Ok(())
}

// The next pairs of places of a join, at most so many, and where the left rows go on after them: up to the left row whose pairs
// would pass the room.
fn next_pairs(
    alloc: Global,
    seen: &KeySet,
    groups: &Vec<Places>,
    on: &[usize],
    left: &Batch,
    how: How,
    from: Cursor,
    most: usize,
) -> Result<(Pairs, Next), Memory>
    requires beside { length groups.now.items ≡ length seen.now.keys }
    requires some { 1 ≤ length on.now }
    requires places { All (λ p. p < length left.now.fields) on.now }
    requires whole { seen.now.is_whole ≡ true → IsWholeAt left.now.fields on.now }
    ensures frame { OnOk result (IsFrame left.now) }
    ensures few { IfOk result (λ r. IsCountOf most (length r.0) r.1) }
    ensures pairs { IfOk result (λ r. (nulls_equal : Bool) (key_at_place : ℕ → List Value) (right_count : ℕ) → IsIndex nulls_equal key_at_place right_count seen.now.keys groups.now.items →
        let output = λ (l : ℕ). pairs_of how l (matches_of nulls_equal key_at_place right_count (key_at on.now (slice_index_or left.now.rows l []))) in
        IsCursor output (length left.now.rows) from → GoesOn output (length left.now.rows) from r.0 r.1) }
{
    let mut key = RowKey::nulls(alloc, seen.is_whole(), on.len())?;
    let mut pairs = Pairs::with_capacity(alloc, left.rows().min(most))?;
    let mut at = from;
    while at.row < left.rows() {
        key.read(alloc, left, on, at.row)?;
        let matches = places_of(seen, groups, &key);
        let wanted = count_pairs(how, at.row, matches);
        if wanted as u64 > at.room {
            return Ok((pairs, Next::End(Some(at.row))));
        }
        let space = most - pairs.len();
        push_pairs(&mut pairs, how, at.row, matches, at.given, space)?;
        if wanted.saturating_sub(at.given) > space {
            at.given += space;
            return Ok((pairs, Next::At(at)));
        }
        at = Cursor {
            row: at.row + 1,
            given: 0,
            room: at.room - wanted as u64,
        };
    }
    Ok((pairs, Next::End(None)))
}
