ghost use Rattle.std.specs.Prelude.{◌≡◌, ◌+◌, [], ◌∷◌, ◌++◌, None, option_copied, IfOk, OnOk, replicate, slice_index_or, slice_set};
ghost use Rattle.std.specs.Option.{option_copied_mut};
ghost use Rattle.std.specs.Borrow.{sem};
ghost use Rattle.it_types.specs.Table.{put_answer, put_into};
ghost use Rattle.it_types.specs.Lends.{lends_at};

use crate::NoMemory;
use std::alloc::Global;
use std::marker::Model;

/// Why a value isn't put into a table; it is handed back.
#[derive(Debug, Drop)]
pub enum PutErr<T> {
    /// The id is 0 or above the greatest.
    BadId(T),
    /// There is a value under the id already.
    Taken(T),
}

/// At most N values by their ids, from 1 to N.
#[derive(Debug, Drop)]
pub struct Table<T, const N: usize> {
    places: Vec<Option<T>>,
}

impl<T, const N: usize> Model for Table<T, N> {
    ghost use Rattle.std.specs.Coded.{coded_list, coded_option};
    ghost use Rattle.std.specs.Prelude.{List, Option};
    ghost use Rattle.it_types.specs.Table.{IsTable};

    ghost Value = { List (Option T) };

    ghost coded = { coded_list (coded_option T.code) };

    ghost view = { λ t. t.places.items };

    ghost invariant = { λ t. IsTable N t.places.items };
}

// One more empty place.
fn push_empty<T: Drop>(places: &mut Vec<Option<T>>) -> Result<(), NoMemory>
    ensures { OnOk result (places.new.items ≡ places.old.items ++ None ∷ []) }
{
    match places.push(None) {
        Ok(()) => Ok(()),
        Err(_) => Err(NoMemory),
    }
}

impl<T: Drop, const N: usize> Table<T, N> {
    /// A table without values.
    pub fn new(alloc: Global) -> Result<Self, NoMemory>
        ensures { IfOk result (λ t. t ≡ replicate (N + 1) None) }
    {
        let mut places = Vec::new(alloc);
        push_empty(&mut places)?;
        for _place in 0..N {
            push_empty(&mut places)?;
        }
        Ok(Table { places })
    }

    /// Puts a value under an id.
    pub fn put(&mut self, id: u32, v: T) -> Result<(), PutErr<T>>
        ensures answer { result ≡ put_answer N self.old id v }
        ensures table { self.new ≡ put_into N self.old id v }
    {
        if id == 0 || id as usize > N {
            return Err(PutErr::BadId(v));
        }
        if self.places[id as usize].is_some() {
            return Err(PutErr::Taken(v));
        }
        self.places[id as usize] = Some(v);
        Ok(())
    }

    /// The value under an id, None exactly where there is none.
    pub fn get(&self, id: u32) -> Option<&T>
        ensures { option_copied result ≡ slice_index_or self.now id None }
    {
        match self.places.get(id as usize) {
            Some(Some(value)) => Some(value),
            _ => None,
        }
    }

    /// The value under an id, to write to, None exactly where there is none.
    pub fn get_mut(&mut self, id: u32) -> Option<&mut T>
        ensures* writes_back { sem 𝓛 (lends_at T.row N.row self.entry id result) }
        ensures value { option_copied_mut result ≡ slice_index_or self.old id None }
    {
        if id as usize >= self.places.len() {
            return None;
        }
        if id == 0 {
            return None;
        }
        self.places[id as usize].as_mut()
    }

    /// Takes the value under an id out, None exactly where there is none.
    pub fn take(&mut self, id: u32) -> Option<T>
        ensures value { result ≡ slice_index_or self.old id None }
        ensures table { self.new ≡ slice_set self.old id None }
    {
        if id as usize >= self.places.len() {
            return None;
        }
        self.places[id as usize].take()
    }
}
