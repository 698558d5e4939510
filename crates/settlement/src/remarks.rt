//! The remarks of an outcome.
ghost use Rattle.std.specs.Prelude.{◌≡◌, ◌++◌, [], IfOk, OnOk, flat_map, length, map, slice_get};
ghost use Rattle.std.specs.Arc.{arc_value};
ghost use Rattle.std.specs.List.{join_by};
ghost use Rattle.std.specs.Option.{option_copied};
ghost use Rattle.settlement.specs.Remarked.{listed_texts, word_at};

use feel_tests::{Bytes, Sequence, Text, append_joined};
use smallvec::SmallVec;
use std::alloc::{AllocError, Global};
use std::marker::Model;
use std::sync::Arc;

/// The number of places that a list stores without an allocation.
const INLINE_PLACES: usize = 16;

/// The remarks of an outcome, in order. Contracts see the list of their texts.
///
/// Outcomes share the texts of a plan's rules, so that a remark is a place in a shared list and not
/// a copy. An empty list needs no memory.
pub struct Remarks {
    listed: Option<Arc<Listed>>,
}

impl Drop for Remarks {
    #[inline]
    fn drop(self) {
        let Remarks { listed: _ } = self;
    }
}

/// A list of texts.
enum Listed {
    /// The texts at these places of a shared list of words.
    Placed {
        words: Arc<Sequence<Text>>,
        places: SmallVec<u8, INLINE_PLACES>,
    },
    /// Texts that the list owns.
    Own(Sequence<Text>),
}

impl Drop for Listed {
    fn drop(self) {
        match self {
            Listed::Placed {
                words: _,
                places: _,
            } => {}
            Listed::Own(_) => {}
        }
    }
}

impl Model for Remarks {
    ghost use Rattle.std.specs.Prelude.{List, ℕ};
    ghost use Rattle.settlement.specs.Remarked.{remarks_listed};

    ghost Value = { List (List ℕ) };

    ghost view = { λ r. remarks_listed r.listed };
}

impl Remarks {
    /// Returns an empty list of remarks.
    pub fn none() -> Remarks
        ensures { result ≡ [] }
    {
        Remarks { listed: None }
    }

    /// Returns a list of remarks that owns the texts.
    pub fn new(alloc: Global, texts: Sequence<Text>) -> Result<Remarks, AllocError>
        ensures { IfOk result (λ remarks. remarks ≡ texts) }
    {
        if texts.is_empty() {
            return Ok(Remarks::none());
        }
        Remarks::from_list(alloc, Listed::Own(texts))
    }

    /// Returns the remarks whose texts are the words at these places.
    pub(crate) fn from_places(
        alloc: Global,
        words: &Arc<Sequence<Text>>,
        places: SmallVec<u8, INLINE_PLACES>,
    ) -> Result<Remarks, AllocError>
        ensures { IfOk result (λ remarks.
            remarks ≡ map (word_at (arc_value words.now)) places.items) }
    {
        let words = words.clone()?;
        Remarks::from_list(alloc, Listed::Placed { words, places })
    }

    fn from_list(alloc: Global, listed: Listed) -> Result<Remarks, AllocError>
        ensures { IfOk result (λ remarks. remarks ≡ listed_texts listed) }
    {
        Ok(Remarks {
            listed: Some(Arc::new(alloc, listed)?),
        })
    }

    /// Returns the same remarks without a copy: both values share their memory.
    pub(crate) fn share(&self) -> Result<Remarks, AllocError>
        ensures { IfOk result (λ same. same ≡ self.now) }
    {
        match &self.listed {
            Some(listed) => Ok(Remarks {
                listed: Some(listed.clone()?),
            }),
            None => Ok(Remarks::none()),
        }
    }

    /// Returns the places of the remarks in the shared list of words, or `None` if there is no such list.
    pub(crate) fn places(&self) -> Option<&[u8]> {
        match &self.listed {
            Some(listed) => listed.places(),
            None => None,
        }
    }

    /// Returns the number of remarks.
    pub fn len(&self) -> usize
        ensures { result ≡ length self.now }
    {
        match &self.listed {
            Some(listed) => listed.len(),
            None => 0,
        }
    }

    /// Appends the remarks to `text`, with `mark` between two of them.
    pub fn append_joined(&self, text: &mut Vec<u8>, mark: &str) -> Result<(), AllocError>
        ensures { OnOk result (text.new.items
            ≡ text.old.items ++ join_by (λ remark. remark) mark.now self.now) }
    {
        match &self.listed {
            Some(listed) => listed.append_joined(text, mark),
            None => Ok(()),
        }
    }

    /// Returns the text of the remark at an index from 0, or `None` if there is no such remark.
    pub fn get(&self, place: usize) -> Option<&str>
        ensures { option_copied result ≡ slice_get self.now place }
    {
        match &self.listed {
            Some(listed) => listed.get(place),
            None => None,
        }
    }
}

impl Listed {
    fn places(&self) -> Option<&[u8]> {
        match self {
            Listed::Placed { places, .. } => Some(places.as_slice()),
            Listed::Own(_) => None,
        }
    }

    fn len(&self) -> usize
        ensures { result ≡ length (listed_texts self.now) }
    {
        match self {
            Listed::Placed { places, .. } => places.len(),
            Listed::Own(texts) => texts.len(),
        }
    }

    #[tactic(auto, using(crate::proofs::Remarked::joined_map))]
    fn append_joined(&self, text: &mut Vec<u8>, mark: &str) -> Result<(), AllocError>
        ensures { OnOk result (text.new.items
            ≡ text.old.items ++ join_by (λ remark. remark) mark.now (listed_texts self.now)) }
    {
        match self {
            Listed::Placed { words, places } => {
                append_words(text, mark, words.as_slice(), places.as_slice())
            }
            Listed::Own(texts) => append_joined::<Text, Bytes>(text, mark, texts.as_slice()),
        }
    }

    fn get(&self, place: usize) -> Option<&str>
        ensures { option_copied result ≡ slice_get (listed_texts self.now) place }
    {
        match self {
            Listed::Placed { words, places } => {
                let place = places.as_slice().get(place)?;
                Some(word_at(words.as_slice(), *place))
            }
            Listed::Own(texts) => {
                let text = texts.as_slice().get(place)?;
                Some(text.as_str())
            }
        }
    }
}

fn append_words(
    text: &mut Vec<u8>,
    mark: &str,
    words: &[Text],
    places: &[u8],
) -> Result<(), AllocError>
    ensures { OnOk result (text.new.items
        ≡ text.old.items ++ join_by (word_at words.now) mark.now places.now) }
{
    match places {
        [] => Ok(()),
        [first, others @ ..] => {
            text.extend_from_slice(word_at(words, *first).as_bytes())?;
            append_others(text, mark, words, others)
        }
    }
}

// Appends the words at the places, each after the mark.
fn append_others(
    text: &mut Vec<u8>,
    mark: &str,
    words: &[Text],
    places: &[u8],
) -> Result<(), AllocError>
    ensures { OnOk result (text.new.items ≡ text.old.items
        ++ flat_map (λ place. mark.now ++ word_at words.now place) places.now) }
{
    for place in places {
        text.extend_from_slice(mark.as_bytes())?;
        text.extend_from_slice(word_at(words, *place).as_bytes())?;
    }
    Ok(())
}

/// Returns the word at a place, or an empty text if the place is past the end of the list.
pub(crate) fn word_at(words: &[Text], place: u8) -> &str
    ensures { result.now ≡ word_at words.now place }
{
    match words.get(usize::from(place)) {
        Some(word) => word.as_str(),
        None => "",
    }
}
