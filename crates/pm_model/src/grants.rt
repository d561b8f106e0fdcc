//! The associations of one user attribute. A long list has words beside it that tell what its
//! associations are on, so that a decision passes by a list none of which can matter.

ghost use Rattle.std.specs.Prelude.{◌≡◌, ℕ, ◌<◌, ◌+◌, ◌==◌, ◌&&◌, ◌||◌, ◌/◌, ◌++◌, not, [], ◌∷◌, length, OnOk, OnErr, IfOk, Some};
ghost use Rattle.std.specs.List.{list_any, position};
ghost use Rattle.pm_model.specs.declared.grants.PlaceWord.{PlaceWord};
ghost use Rattle.pm_model.specs.Grants.{is_in, is_on, is_told, grants_off, TellPlaces};

use crate::elements::ElementId;
use crate::memory::Memory;
use crate::rights::Grant;
use std::alloc::Global;
use std::marker::Model;

/// From how many associations on a list has words beside it.
const MANY: usize = 16;

/// Some of the 64 numbers from 64 k on: bit i is the number 64 k + i.
#[derive(Clone, Copy, Debug, PartialEq, Eq)]
pub struct PlaceWord {
    pub k: u32,
    pub word: u64,
}

/// The associations of one user attribute, in order of creation. Contracts see this list.
pub struct GrantList {
    items: Vec<Grant>,
    /// No word of the same 64 numbers twice, and none without numbers.
    places: Vec<PlaceWord>,
}

impl Drop for GrantList {
    fn drop(self) {
        let GrantList {
            items: _,
            places: _,
        } = self;
    }
}

impl Model for GrantList {
    ghost use Rattle.std.specs.Prelude.{List};
    ghost use Rattle.pm_model.specs.declared.rights.Grant.{Grant};

    ghost Value = { List Grant };

    ghost use Rattle.pm_model.specs.GrantsKept.{grants_of, IsTold};

    ghost view = { grants_of };

    ghost invariant = { IsTold };
}

/// Puts a number into a word of the 64 numbers that it is among.
fn set_number(place: &mut PlaceWord, number: u32)
    requires { number / 64 ≡ place.old.k }
    ensures { (n : ℕ) → is_in n place.new ≡ (n == number || is_in n place.old) }
{
    place.word |= 1 << (number % 64);
}

/// The word with a number alone.
fn first_number(number: u32) -> PlaceWord
    ensures { (n : ℕ) → is_in n result ≡ (n == number) }
{
    let mut place = PlaceWord {
        k: number / 64,
        word: 0,
    };
    set_number(&mut place, number);
    place
}

/// Takes a number out of a word, if it is there.
fn clear_number(place: &mut PlaceWord, number: u32)
    ensures { (n : ℕ) → is_in n place.new ≡ (is_in n place.old && not (n == number)) }
{
    if place.k == number / 64 {
        place.word &= !(1 << (number % 64));
    }
}

/// The place of the word of the 64 numbers that the number is among, if there is one.
fn place_of(places: &[PlaceWord], number: u32) -> Option<usize>
    ensures { result ≡ position (λ (place : PlaceWord). place.k == number / 64) places.now }
{
    let k = number / 64;
    places.iter().position(|place| place.k == k)
}

/// Puts a number into the word of the 64 numbers that it is among, which stands at a place.
fn set_at(places: &mut Vec<PlaceWord>, i: usize, number: u32)
    requires { position (λ (place : PlaceWord). place.k == number / 64) places.old.items ≡ Some i }
    ensures { (n : ℕ) → is_told places.new.items n ≡ (n == number || is_told places.old.items n) }
{
    set_number(&mut places[i], number);
}

/// Puts a number into the words. On Memory they are as before.
fn put(places: &mut Vec<PlaceWord>, number: u32) -> Result<(), Memory>
    ensures ok { OnOk result ((n : ℕ) → is_told places.new.items n ≡ (n == number || is_told places.old.items n)) }
    ensures err { OnErr result (places.new.items ≡ places.old.items) }
{
    match place_of(places.as_slice(), number) {
        Some(i) => {
            set_at(places, i, number);
            Ok(())
        }
        None => {
            places.push(first_number(number))?;
            Ok(())
        }
    }
}

/// Takes a number out of the words, if it is there.
fn clear(places: &mut Vec<PlaceWord>, number: u32)
    ensures { (n : ℕ) → is_told places.new.items n ≡ (is_told places.old.items n && not (n == number)) }
{
    let mut i = 0;
    while i < places.len() {
        clear_number(&mut places[i], number);
        i += 1;
    }
}

/// Takes the words without numbers away.
fn drop_empty(places: &mut Vec<PlaceWord>)
    ensures { (n : ℕ) → is_told places.new.items n ≡ is_told places.old.items n }
{
    places.retain(|place| place.word != 0);
}

/// Takes the associations on an element out of the list.
fn drop_grants(grants: &mut Vec<Grant>, at: ElementId)
    ensures { grants.new.items ≡ grants_off at grants.old.items }
{
    grants.retain(|grant| grant.at != at);
}

/// The words of what the grants are on.
fn places_of(alloc: Global, grants: &[Grant]) -> Result<Vec<PlaceWord>, Memory>
    ensures { IfOk result (λ places. TellPlaces places.items grants.now) }
{
    let mut places = Vec::new(alloc);
    for grant in grants {
        put(&mut places, grant.at.number())?;
    }
    Ok(places)
}

/// Lets the words tell what the next association is on, where the list has words or is long enough to
/// have some.
fn put_next(places: &mut Vec<PlaceWord>, grants: &[Grant], at: ElementId) -> Result<(), Memory>
    requires told { 0 < length places.old.items → TellPlaces places.old.items grants.now }
    ensures ok { OnOk result (0 < length places.new.items → (n : ℕ) → is_told places.new.items n ≡ (n == at || list_any (is_on n) grants.now)) }
    ensures err { OnErr result (0 < length places.new.items → TellPlaces places.new.items grants.now) }
{
    if places.is_empty() {
        if grants.len() + 1 < MANY {
            return Ok(());
        }
        *places = places_of(*places.allocator(), grants)?;
    }
    put(places, at.number())
}

impl GrantList {
    /// The empty list, which takes no memory.
    pub fn new(alloc: Global) -> Self
        ensures { result ≡ [] }
    {
        GrantList {
            items: Vec::new(alloc),
            places: Vec::new(alloc),
        }
    }

    /// How many associations there are.
    pub fn len(&self) -> usize
        ensures { result ≡ length self.now }
    {
        self.items.len()
    }

    /// The associations as a slice.
    pub fn as_slice(&self) -> &[Grant]
        ensures { result.now ≡ self.now }
    {
        self.items.as_slice()
    }

    /// Words that tell what the associations are on, where the list has such: none while it has fewer
    /// than 16.
    pub fn places(&self) -> &[PlaceWord]
        ensures { 0 < length result.now → TellPlaces result.now self.now }
    {
        self.places.as_slice()
    }

    /// Puts an association at the end. On Memory the list is as before.
    pub fn push(&mut self, grant: Grant) -> Result<(), Memory>
        ensures ok { OnOk result (self.new ≡ self.old ++ grant ∷ []) }
        ensures err { OnErr result (self.new ≡ self.old) }
    {
        self.items.reserve(1)?;
        put_next(&mut self.places, self.items.as_slice(), grant.at)?;
        self.items.push_reserved(grant);
        Ok(())
    }

    /// Takes the associations on an element out of the list.
    pub fn take_off(&mut self, at: ElementId)
        ensures { self.new ≡ grants_off at self.old }
    {
        drop_grants(&mut self.items, at);
        if !self.places.is_empty() {
            clear(&mut self.places, at.number());
            drop_empty(&mut self.places);
        }
    }

    /// The same list once more.
    pub fn copy(&self) -> Result<Self, Memory>
        ensures { IfOk result (λ same. same ≡ self.now) }
    {
        let alloc = *self.items.allocator();
        Ok(GrantList {
            items: Vec::from_slice(alloc, self.items.as_slice())?,
            places: Vec::from_slice(alloc, self.places.as_slice())?,
        })
    }
}
