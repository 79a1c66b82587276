// Numbers in a row with gaps, and the place of each, so that one leaves without a search.

ghost use Rattle.std.specs.Prelude.{◌≡◌, ◌≢◌, ◌<◌, ◌≤◌, ◌+◌, ◌*◌, ◌++◌, ◌∷◌, [], ℕ, Some, None, false, IfOk, replicate, get_or, length};
ghost use Rattle.std.specs.Option.{is_some};
ghost use Rattle.index_sets.specs.Queue.{is_listed, without, first_of};
ghost use Rattle.index_sets.specs.Row.{IsPacking, IsRow, listed_in};

use stable::NoMemory;
use std::alloc::Global;

/// A row of numbers below a size. It has two places for each number: one that left leaves a gap, and where the row has come
/// to its end the gaps are taken out.
#[derive(Drop)]
pub struct Row {
    items: Vec<Option<u32>>,
    places: Vec<Option<usize>>,
    /// The place of the first number.
    head: usize,
    /// The place of the next number.
    end: usize,
    count: u32,
    size: u32,
}

// Gaps alone.
fn gaps(alloc: Global, length: usize) -> Result<Vec<Option<u32>>, NoMemory>
    ensures { IfOk result (λ items. items.items ≡ replicate length None) }
{
    let items = vec![in alloc; None; length]?;
    Ok(items)
}

// No place of any number.
fn no_places(alloc: Global, length: usize) -> Result<Vec<Option<usize>>, NoMemory>
    ensures { IfOk result (λ places. places.items ≡ replicate length None) }
{
    let places = vec![in alloc; None; length]?;
    Ok(places)
}

// What stands at a place.
fn item_at(items: &[Option<u32>], place: usize) -> Option<u32>
    ensures { result ≡ get_or items.now place None }
{
    if place >= items.len() {
        return None;
    }
    items[place]
}

// The place of a number.
fn place_of(places: &[Option<usize>], number: u32) -> Option<usize>
    ensures { result ≡ get_or places.now number None }
{
    if number as usize >= places.len() {
        return None;
    }
    places[number as usize]
}

// The first place from one on that is no gap, the end where all are.
fn next_number(items: &[Option<u32>], from: usize, end: usize) -> usize
    requires { from ≤ end }
    ensures low { from ≤ result }
    ensures high { result ≤ end }
    ensures gaps { (p : ℕ) → from ≤ p → p < result → get_or items.now p None ≡ None }
    ensures number { result < end → get_or items.now result None ≢ None }
{
    for place in from..end {
        if item_at(items, place).is_some() {
            return place;
        }
    }
    end
}

impl Row {
    /// The empty row for numbers below a size.
    pub fn new(alloc: Global, size: u32) -> Result<Row, NoMemory>
        ensures row { IfOk result (λ row. IsRow row) }
        ensures listed { IfOk result (λ row. listed_in row ≡ []) }
        ensures size { IfOk result (λ row. row.size ≡ size) }
    {
        let items = gaps(alloc, 2 * size as usize)?;
        let places = no_places(alloc, size as usize)?;
        Ok(Row {
            items,
            places,
            head: 0,
            end: 0,
            count: 0,
            size,
        })
    }

    /// The size below which its numbers are.
    pub fn size(&self) -> u32
        ensures { result ≡ self.now.size }
    {
        self.size
    }

    /// How many numbers there are.
    pub fn count(&self) -> u32
        ensures { result ≡ self.now.count }
    {
        self.count
    }

    /// Whether a number is in it.
    pub fn has(&self, number: u32) -> bool
        requires { IsRow self.now }
        ensures { result ≡ is_listed number (listed_in self.now) }
    {
        place_of(self.places.as_slice(), number).is_some()
    }

    /// The first number.
    pub fn first(&self) -> Option<u32>
        requires { IsRow self.now }
        ensures { result ≡ first_of (listed_in self.now) }
    {
        item_at(self.items.as_slice(), self.head)
    }

    /// Adds a number at the end.
    pub fn push_last(&mut self, number: u32)
        requires row { IsRow self.old }
        requires below { number < self.old.size }
        requires other { is_listed number (listed_in self.old) ≡ false }
        ensures row { IsRow self.new }
        ensures listed { listed_in self.new ≡ listed_in self.old ++ number ∷ [] }
        ensures size { self.new.size ≡ self.old.size }
    {
        self.make_room();
        let place = self.end;
        self.items[place] = Some(number);
        self.places[number as usize] = Some(place);
        self.end += 1;
        self.count += 1;
        self.head = next_number(self.items.as_slice(), self.head, self.end);
    }

    /// Takes a number out, wherever it stands. One that isn't in it changes nothing.
    pub fn remove(&mut self, number: u32)
        requires { IsRow self.old }
        ensures row { IsRow self.new }
        ensures listed { listed_in self.new ≡ without number (listed_in self.old) }
        ensures gone { is_listed number (listed_in self.new) ≡ false }
        ensures size { self.new.size ≡ self.old.size }
    {
        match place_of(self.places.as_slice(), number) {
            Some(place) => self.clear(place, number),
            None => {}
        }
    }

    // Leaves a gap where a number stands.
    fn clear(&mut self, place: usize, number: u32)
        requires row { IsRow self.old }
        requires here { get_or self.old.places.items number None ≡ Some place }
        ensures row { IsRow self.new }
        ensures listed { listed_in self.new ≡ without number (listed_in self.old) }
        ensures gone { is_listed number (listed_in self.new) ≡ false }
        ensures size { self.new.size ≡ self.old.size }
    {
        self.items[place] = None;
        self.places[number as usize] = None;
        self.count -= 1;
        self.head = next_number(self.items.as_slice(), self.head, self.end);
    }

    // Takes the gaps out where the row has come to its end.
    fn make_room(&mut self)
        requires { IsRow self.old }
        ensures row { IsRow self.new }
        ensures listed { listed_in self.new ≡ listed_in self.old }
        ensures size { self.new.size ≡ self.old.size }
        ensures room { self.new.count < self.new.size → self.new.end < 2 * self.new.size }
    {
        if self.end == self.items.len() {
            self.pack();
        }
    }

    // Takes the gaps out: each number moves to the front in its turn.
    fn pack(&mut self)
        requires { IsRow self.old }
        ensures row { IsRow self.new }
        ensures listed { listed_in self.new ≡ listed_in self.old }
        ensures size { self.new.size ≡ self.old.size }
        ensures packed { self.new.end ≤ self.new.count }
    {
        let mut to = 0;
        for from in 0..self.end {
            to = self.move_front(from, to);
        }
        self.head = 0;
        self.end = to;
    }

    // Moves what stands at a place over the gaps before it. It answers the place for the next number.
    fn move_front(&mut self, from: usize, to: usize) -> usize
        requires packing { IsPacking self.old to from }
        requires within { from < self.old.end }
        ensures packing { IsPacking self.new result (from + 1) }
        ensures listed { listed_in self.new ≡ listed_in self.old }
        ensures size { self.new.size ≡ self.old.size }
        ensures end { self.new.end ≡ self.old.end }
    {
        match item_at(self.items.as_slice(), from) {
            Some(number) => {
                self.items[from] = None;
                self.items[to] = Some(number);
                self.places[number as usize] = Some(to);
                to + 1
            }
            None => to,
        }
    }
}
