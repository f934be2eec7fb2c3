//! Which places of a stairway may be of a section's blocks: found once for all stairways over the
//! same blocks in the same order, as those of the runs of one route are.
ghost use Rattle.std.specs.Prelude.{◌≡◌, ◌+◌, ◌<◌, min, [], true, slice_get, slice_index, slice_index_or, None, IfOk, IfSome, OnOk};
ghost use Rattle.std.specs.Option.{option_and_then};
ghost use Rattle.section_cut.specs.Spans.{AreListSpans, AreOver, IsOver, IsSpan, IsWithNext, KeepsLists, TellSpans, blocks_of, part_of};

use rail_model::{List, OutOfMemory, Use};
use std::alloc::Global;

// How many lists of blocks are kept at most. Stairways over other blocks are looked at whole.
const MOST_LISTS: usize = 16;

// Lists of blocks, each once, and for each stairway the number of the list that it is over, if that
// is kept.
#[derive(Drop)]
pub(crate) struct BlockLists {
    lists: Vec<List<u32>>,
    numbers: Vec<Option<usize>>,
}

// From a place of a stairway up to another.
#[derive(Clone, Copy)]
pub(crate) struct BlockRange {
    from: usize,
    to: usize,
}

impl BlockLists {
    // The lists of no stairway.
    pub(crate) fn new(alloc: Global) -> BlockLists
        ensures { AreOver [] result }
    {
        BlockLists {
            lists: Vec::new(alloc),
            numbers: Vec::new(alloc),
        }
    }

    // Adds a stairway of these uses behind the others.
    pub(crate) fn add(&mut self, alloc: Global, uses: &[Use]) -> Result<(), OutOfMemory>
        ensures { OnOk result (IsWithNext self.old uses.now self.new) }
    {
        let number = number_in(&mut self.lists, alloc, uses)?;
        self.numbers.push(number)?;
        Ok(())
    }

    // For each stairway a span that has all its places of a section's blocks, of which there are so
    // many. Where there is none, the whole stairway may be in the section.
    pub(crate) fn spans(
        &self,
        alloc: Global,
        positions: &[u32],
        blocks: usize,
    ) -> Result<Vec<Option<BlockRange>>, OutOfMemory>
        ensures { IfOk result (λ spans. TellSpans positions.now blocks self.now spans.items) }
    {
        let by_list = list_spans(alloc, &self.lists, positions, blocks)?;
        let mut spans = Vec::with_capacity(alloc, self.numbers.len())?;
        for number in &self.numbers {
            spans.push(span_by(&by_list, *number))?;
        }
        Ok(spans)
    }
}

// The number of the list of the blocks of these uses, which is put behind the others where it isn't
// there and they are few. `None` says nothing: then the stairway has no span.
fn number_in(
    lists: &mut Vec<List<u32>>,
    alloc: Global,
    uses: &[Use],
) -> Result<Option<usize>, OutOfMemory>
    ensures over { IfOk result (λ number. IfSome number (IsOver lists.new.items uses.now)) }
    ensures kept { OnOk result (KeepsLists lists.old.items lists.new.items) }
{
    let count = lists.len();
    if let Some(number) = list_of(lists, uses) {
        return Ok(Some(number));
    }
    if count >= MOST_LISTS {
        return Ok(None);
    }
    lists.push(List::from_vec(blocks_of(alloc, uses)?))?;
    Ok(Some(count))
}

// The number of the list of the blocks of these uses, if it is there. `None` says nothing.
fn list_of(lists: &[List<u32>], uses: &[Use]) -> Option<usize>
    ensures { IfSome result (IsOver lists.now uses.now) }
{
    for number in 0..lists.len() {
        if is_over(uses, lists[number].slice()) {
            return Some(number);
        }
    }
    None
}

// Whether uses are over these blocks, in their order. `false` says nothing.
fn is_over(uses: &[Use], list: &[u32]) -> bool
    ensures { result ≡ true → list.now ≡ blocks_of uses.now }
{
    if uses.len() != list.len() {
        return false;
    }
    for place in 0..list.len() {
        if uses[place].block != list[place] {
            return false;
        }
    }
    true
}

// The blocks of these uses, in their order.
fn blocks_of(alloc: Global, uses: &[Use]) -> Result<Vec<u32>, OutOfMemory>
    ensures { IfOk result (λ blocks. blocks.items ≡ blocks_of uses.now) }
{
    let mut blocks = Vec::with_capacity(alloc, uses.len())?;
    for one in uses {
        blocks.push(one.block)?;
    }
    Ok(blocks)
}

// The span of each list.
fn list_spans(
    alloc: Global,
    lists: &[List<u32>],
    positions: &[u32],
    blocks: usize,
) -> Result<Vec<BlockRange>, OutOfMemory>
    ensures { IfOk result (λ spans. AreListSpans positions.now blocks lists.now spans.items) }
{
    let mut spans = Vec::with_capacity(alloc, lists.len())?;
    for list in lists {
        spans.push(span_of(list.slice(), positions, blocks))?;
    }
    Ok(spans)
}

// The span of a list: from the first of its blocks that is in the section to the last.
fn span_of(list: &[u32], positions: &[u32], blocks: usize) -> BlockRange
    ensures { IsSpan positions.now blocks list.now result }
{
    let mut span = BlockRange {
        from: usize::MAX,
        to: 0,
    };
    for place in 0..list.len() {
        if position_of(positions, list[place]) < blocks {
            span = with_place(span, place);
        }
    }
    span
}

// The position of a block in a section, and 0 where the table hasn't the block.
fn position_of(positions: &[u32], block: u32) -> usize
    ensures { result ≡ slice_index positions.now block }
{
    match positions.get(block as usize) {
        Some(position) => *position as usize,
        None => 0,
    }
}

// A span with a place that isn't before it.
fn with_place(span: BlockRange, place: usize) -> BlockRange
    requires { place < 18446744073709551615 }
    ensures { (result.from ≡ min span.from place) × (result.to ≡ place + 1) }
{
    BlockRange {
        from: span.from.min(place),
        to: place + 1,
    }
}

// The span of a number, if there is one.
fn span_by(spans: &[BlockRange], number: Option<usize>) -> Option<BlockRange>
    ensures { result ≡ option_and_then (slice_get spans.now) number }
{
    spans.get(number?).copied()
}

// The part of a stairway's uses that a span at a place of these has, or all where there is none.
pub(crate) fn part<'a>(uses: &'a [Use], spans: &[Option<BlockRange>], n: usize) -> &'a [Use]
    ensures { result.now ≡ part_of (slice_index_or spans.now n None) uses.now }
{
    let Some(span) = span_at(spans, n) else {
        return uses;
    };
    let to = span.to.min(uses.len());
    &uses[span.from.min(to)..to]
}

// The span at a place, if there is one.
fn span_at(spans: &[Option<BlockRange>], n: usize) -> Option<BlockRange>
    ensures { result ≡ slice_index_or spans.now n None }
{
    match spans.get(n) {
        Some(span) => *span,
        None => None,
    }
}
