//! The table of a plan's remarks.
ghost use Rattle.std.specs.Prelude.{length};
ghost use Rattle.std.specs.List.Sorted.{IsSearchInRange};

use crate::cost_sharing::text_of;
use crate::remarks::{Remarks, word_at};
use feel_tests::{Text, Value};
use smallvec::SmallVec;
use std::alloc::{AllocError, Global};
use std::cmp::Ordering;
use std::sync::Arc;
use tables::{OutputPlace, Plan, Sequence, Table};

/// The number of slots for lists of several remarks.
const LIST_SLOTS: usize = 256;

/// The remark texts of a plan's rules. The remarks of an outcome refer to them by their places.
///
/// A lookup has no contract: the caller compares its result with the texts that it looked up.
pub struct RemarkTable {
    alloc: Global,
    /// The distinct texts in rule order, at most as many as a place can number.
    words: Arc<Sequence<Text>>,
    /// The places of the words, sorted by the words' lengths and then by their bytes.
    order: Sequence<u8>,
    /// For each word, the list of remarks with that word alone.
    alone: Sequence<Remarks>,
    /// Lists of several remarks that outcomes had, each in the slot that its places select. There
    /// are no slots before the first such list.
    several: Vec<Option<Remarks>>,
}

impl Drop for RemarkTable {
    fn drop(self) {
        let RemarkTable {
            alloc: _,
            words: _,
            order: _,
            alone: _,
            several: _,
        } = self;
    }
}

impl RemarkTable {
    /// Collects the remark texts of the plan's output at the place.
    pub fn new(
        alloc: Global,
        plan: &Plan,
        place: Option<OutputPlace>,
    ) -> Result<RemarkTable, AllocError> {
        let mut words = Sequence::new(alloc);
        let mut order = Sequence::new(alloc);
        if let Some(place) = place {
            if let Some(table) = plan.tables().get(place.table) {
                add_entries(alloc, &mut words, &mut order, table, place.column)?;
            }
        }
        let words = Arc::new(alloc, words)?;
        let alone = each_alone(alloc, &words)?;
        Ok(RemarkTable {
            alloc,
            words,
            order,
            alone,
            several: Vec::new(alloc),
        })
    }

    /// Returns the allocator of the remarks.
    pub fn alloc(&self) -> Global {
        self.alloc
    }

    /// Returns the texts of the values as remarks, or no remarks if a value is not in the table.
    pub fn look_up(&self, values: &[Value]) -> Result<Remarks, AllocError> {
        let mut places = SmallVec::new(self.alloc);
        let mut next = 0;
        for value in values {
            let Some(place) = self.place_of(value, next) else {
                return Ok(Remarks::none());
            };
            places.push(place)?;
            next = place.wrapping_add(1);
        }
        match places.as_slice() {
            [] => Ok(Remarks::none()),
            [place] => self.single_remark(*place),
            listed => match self.list_of(listed) {
                Some(remarks) => remarks.share(),
                None => Remarks::from_places(self.alloc, &self.words, places),
            },
        }
    }

    // Returns the list of the remarks at these places, if an outcome had it.
    fn list_of(&self, places: &[u8]) -> Option<&Remarks> {
        let remarks = self.several.get(slot_of(places))?.as_ref()?;
        if remarks.places()? == places {
            Some(remarks)
        } else {
            None
        }
    }

    /// Keeps a list of several remarks, which outcomes with the same remarks then share.
    pub fn keep(&mut self, remarks: &Remarks) {
        let Some(places) = remarks.places() else {
            return;
        };
        if places.len() < 2 || self.list_of(places).is_some() {
            return;
        }
        // If memory runs out, the list is not kept.
        if self.several.is_empty() && self.add_slots().is_err() {
            return;
        }
        if let Some(slot) = self.several.get_mut(slot_of(places)) {
            *slot = remarks.share().ok();
        }
    }

    fn add_slots(&mut self) -> Result<(), AllocError> {
        self.several.reserve(LIST_SLOTS)?;
        for _ in 0..LIST_SLOTS {
            self.several.push(None)?;
        }
        Ok(())
    }

    fn single_remark(&self, place: u8) -> Result<Remarks, AllocError> {
        match self.alone.as_slice().get(usize::from(place)) {
            Some(remarks) => remarks.share(),
            None => Ok(Remarks::none()),
        }
    }

    // Returns the place of the word that equals the value. The next word is tried first: adjacent
    // rules often match together.
    fn place_of(&self, value: &Value, next: u8) -> Option<u8> {
        let text = text_of(value)?;
        let words = self.words.as_slice();
        if word_at(words, next) == text.as_str() {
            return Some(next);
        }
        let order = self.order.as_slice();
        match find_word(words, order, text) {
            Ok(found) => order.get(found).copied(),
            Err(_) => None,
        }
    }
}

// Returns the index of the slot of a list with these places.
fn slot_of(places: &[u8]) -> usize {
    let mut mixed = 0usize;
    for place in places {
        mixed = mixed.wrapping_mul(31).wrapping_add(usize::from(*place));
    }
    mixed % LIST_SLOTS
}

// Returns the index of the text in the sorted order of the words, or the index at which to insert
// it.
fn find_word(words: &[Text], order: &[u8], text: &Text) -> Result<usize, usize>
    ensures { IsSearchInRange result (length order.now) }
{
    order.binary_search_by(|place| order_of(word_at(words, *place), text.as_str()))
}

// Compares lengths before bytes, since a difference in length is faster to find.
fn order_of(word: &str, text: &str) -> Ordering {
    match word.len().cmp(&text.len()) {
        Ordering::Equal => word.cmp(text),
        order => order,
    }
}

// Adds the entries of the table's rules for the output in the column. An output that is a list has
// no default, so the rules have all its texts.
fn add_entries(
    alloc: Global,
    words: &mut Sequence<Text>,
    order: &mut Sequence<u8>,
    table: &Table,
    column: usize,
) -> Result<(), AllocError> {
    for rule in &table.rules {
        if let Some(entry) = rule.entries.as_slice().get(column) {
            add(alloc, words, order, entry)?;
        }
    }
    Ok(())
}

// Adds a new text, unless all places are in use.
fn add(
    alloc: Global,
    words: &mut Sequence<Text>,
    order: &mut Sequence<u8>,
    value: &Value,
) -> Result<(), AllocError> {
    let Some(text) = text_of(value) else {
        return Ok(());
    };
    let Ok(place) = u8::try_from(words.len()) else {
        return Ok(());
    };
    if let Err(present) = find_word(words.as_slice(), order.as_slice(), text) {
        words.push(Text::new(alloc, text.as_str())?)?;
        order.insert(present, place)?;
    }
    Ok(())
}

fn each_alone(alloc: Global, words: &Arc<Sequence<Text>>) -> Result<Sequence<Remarks>, AllocError> {
    let mut alone = Sequence::new(alloc);
    for place in 0..words.len() {
        if let Ok(place) = u8::try_from(place) {
            let places = SmallVec::from_slice(alloc, &[place])?;
            alone.push(Remarks::from_places(alloc, words, places)?)?;
        }
    }
    Ok(alone)
}
