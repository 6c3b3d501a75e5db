ghost use Rattle.std.specs.Prelude.{◌≡◌, ◌<◌, ◌≤◌, ◌++◌, ◌∷◌, [], ℕ, List, length, map, position};
ghost use Rattle.std.specs.Str.{bytes_eq};
ghost use Rattle.fusion_rules.specs.Names.{AreNames, added, label_of, name_of};

use crate::label::LABEL_LIMIT;
use crate::name::small_name;
use arrayvec::ArrayString;
use indexmap::IndexSet;
use std::alloc::Global;
use std::marker::Model;

/// Why a name isn't added.
#[derive(Clone, Copy, Debug, PartialEq, Eq)]
pub enum NameFault {
    /// The word isn't 1 to 8 letters, digits or `_`.
    Spelling,
    /// Twelve names are there.
    Full,
    /// The name is there already.
    Repeated,
    /// There was no memory for one name more.
    Memory,
}

/// The names of at most twelve labels, each once, in the order added: the label of a name is its place,
/// counted from 0.
#[derive(Drop)]
pub struct Names {
    set: IndexSet<ArrayString<8>>,
}

impl Model for Names {
    ghost use Rattle.std.specs.Prelude.{ℕ, List};
    ghost use Rattle.fusion_rules.specs.Names.{AreNames};
    ghost use Rattle.fusion_rules.specs.Held.{texts};

    ghost Value = { List (List ℕ) };

    ghost view = { λ a. texts a.set.keys };

    ghost invariant = { λ a. AreNames (texts a.set.keys) };
}

impl Names {
    /// No names.
    pub fn new(alloc: Global) -> Names
        ensures { result ≡ [] }
    {
        Names {
            set: IndexSet::new(alloc),
        }
    }

    /// Adds a name behind the others, and gives its label.
    ///
    /// Refuses `Spelling`, else `Full` where twelve names are there, else `Repeated`. Refused, or for want of
    /// memory, the names are unchanged.
    pub fn add(&mut self, name: &[u8]) -> Result<u8, NameFault>
        ensures { added result name.now self.old self.new }
    {
        let Some(small) = small_name(name) else {
            return Err(NameFault::Spelling);
        };
        if self.set.len() == LABEL_LIMIT {
            return Err(NameFault::Full);
        }
        let Ok((index, is_new)) = self.set.insert_full(small) else {
            return Err(NameFault::Memory);
        };
        if !is_new {
            return Err(NameFault::Repeated);
        }
        Ok(index as u8)
    }

    /// The label of a name, or none where it isn't among the names.
    pub fn number(&self, name: &[u8]) -> Option<u8>
        ensures { result ≡ label_of self.now name.now }
    {
        let set = &self.set;
        let small = small_name(name)?;
        let index = set.get_index_of(&small)?;
        Some(index as u8)
    }

    /// The name of a label below the count.
    pub fn name(&self, label: u8) -> &str
        requires { label < length self.now }
        ensures { result.now ≡ name_of self.now label }
    {
        self.set.as_slice()[label as usize].as_str()
    }

    /// The name of a label, or no bytes for a number that is none.
    pub fn name_or_empty(&self, label: u8) -> &str
        ensures { result.now ≡ name_of self.now label }
    {
        if label < self.count() {
            self.name(label)
        } else {
            ""
        }
    }

    /// How many names there are: at most twelve.
    pub fn count(&self) -> u8
        ensures count { result ≡ length self.now }
        ensures names { AreNames self.now }
    {
        self.set.len() as u8
    }
}

#[cfg(test)]
mod tests {
    use super::*;
    use std::test::Fail;

    #[test]
    fn labels(rt: HostRuntime) -> Result<(), Fail> {
        let mut names = Names::new(rt.alloc());
        assert_eq!(rt; names.add(b"1")?, 0);
        assert_eq!(rt; names.add(b"tau_2")?, 1);
        assert_eq!(rt; names.add(b"tau_2"), Err(NameFault::Repeated));
        assert_eq!(rt; names.add(b"t-2"), Err(NameFault::Spelling));
        assert_eq!(rt; names.add(b"123456789"), Err(NameFault::Spelling));
        assert_eq!(rt; names.number(b"tau_2"), Some(1));
        assert_eq!(rt; names.number(b"tau"), None);
        assert_eq!(rt; names.count(), 2);
        assert_eq!(rt; names.name(1), "tau_2");
        assert_eq!(rt; names.name_or_empty(2), "");
        Ok(())
    }
}
