// What a program declares of a schedule.

ghost use Rattle.std.specs.Prelude.{◌≡◌, ◌<◌, ◌++◌, ◌∷◌, [], map, length, string_bytes, OnOk, OnErr};
ghost use Rattle.model.specs.declarations.Declarations.{items_of, item_at, declared_at, plain_item};

use access_set::Params;
use run_condition::Cond;
use std::alloc::{AllocError, Global};
use std::marker::Model;

/// A declared item: a set, or a system without its parameters. It has a name, the names of the sets that it is in,
/// and those of the items that it runs before and after. It has the names of those with which it may be ambiguous,
/// and the conditions on which it runs. Contracts see names by their bytes.
pub struct ItemDesc {
    name: String,
    inside: Vec<String>,
    before: Vec<String>,
    after: Vec<String>,
    before_ignore_deferred: Vec<String>,
    after_ignore_deferred: Vec<String>,
    ambiguous_with: Vec<String>,
    conditions: Vec<Cond>,
}

// One function drops it wherever it is let go.
impl Drop for ItemDesc {
    fn drop(self) {
        let ItemDesc {
            name: _,
            inside: _,
            before: _,
            after: _,
            before_ignore_deferred: _,
            after_ignore_deferred: _,
            ambiguous_with: _,
            conditions: _,
        } = self;
    }
}

impl Model for ItemDesc {
    ghost use Rattle.std.specs.Prelude.{map, string_bytes};
    ghost use Rattle.model.specs.declarations.Declarations.{DeclaredItem};
    ghost use Rattle.model.specs.declarations.Codes.{item_code};

    ghost Value = { DeclaredItem };

    ghost coded = { item_code };

    ghost view = { λ i. record {
      name = string_bytes i.name;
      inside = map string_bytes i.inside.items;
      before = map string_bytes i.before.items;
      after = map string_bytes i.after.items;
      before_ignore_deferred = map string_bytes i.before_ignore_deferred.items;
      after_ignore_deferred = map string_bytes i.after_ignore_deferred.items;
      ambiguous_with = map string_bytes i.ambiguous_with.items;
      conditions = i.conditions.items;
    } };
}

impl ItemDesc {
    /// An item with this name, in no set, before and after nothing, without conditions.
    pub fn new(alloc: Global, name: String) -> Self
        ensures { result ≡ plain_item (string_bytes name) }
    {
        ItemDesc {
            name,
            inside: Vec::new(alloc),
            before: Vec::new(alloc),
            after: Vec::new(alloc),
            before_ignore_deferred: Vec::new(alloc),
            after_ignore_deferred: Vec::new(alloc),
            ambiguous_with: Vec::new(alloc),
            conditions: Vec::new(alloc),
        }
    }

    /// Declares that the item is in the set of this name. Where an allocation fails nothing is declared.
    pub fn add_in(&mut self, name: String) -> Result<(), AllocError>
        ensures ok { OnOk result (self.new
            ≡ record self.old { inside = self.old.inside ++ string_bytes name ∷ [] }) }
        ensures err { OnErr result (self.new ≡ self.old) }
    {
        self.inside.push(name)?;
        Ok(())
    }

    /// Declares that the item runs before the item of this name. Where an allocation fails nothing is declared.
    pub fn add_before(&mut self, name: String) -> Result<(), AllocError>
        ensures ok { OnOk result (self.new
            ≡ record self.old { before = self.old.before ++ string_bytes name ∷ [] }) }
        ensures err { OnErr result (self.new ≡ self.old) }
    {
        self.before.push(name)?;
        Ok(())
    }

    /// Declares that the item runs after the item of this name. Where an allocation fails nothing is declared.
    pub fn add_after(&mut self, name: String) -> Result<(), AllocError>
        ensures ok { OnOk result (self.new
            ≡ record self.old { after = self.old.after ++ string_bytes name ∷ [] }) }
        ensures err { OnErr result (self.new ≡ self.old) }
    {
        self.after.push(name)?;
        Ok(())
    }

    /// Declares that the item runs before the item of this name, which then doesn't wait for commands. Where an allocation fails nothing
    /// is declared.
    pub fn add_before_ignore_deferred(&mut self, name: String) -> Result<(), AllocError>
        ensures ok { OnOk result (self.new
            ≡ record self.old {
              before_ignore_deferred = self.old.before_ignore_deferred
                  ++ string_bytes name ∷ [];
            }) }
        ensures err { OnErr result (self.new ≡ self.old) }
    {
        self.before_ignore_deferred.push(name)?;
        Ok(())
    }

    /// Declares that the item runs after the item of this name, and doesn't wait for its commands. Where an allocation fails nothing is
    /// declared.
    pub fn add_after_ignore_deferred(&mut self, name: String) -> Result<(), AllocError>
        ensures ok { OnOk result (self.new
            ≡ record self.old {
              after_ignore_deferred = self.old.after_ignore_deferred
                  ++ string_bytes name ∷ [];
            }) }
        ensures err { OnErr result (self.new ≡ self.old) }
    {
        self.after_ignore_deferred.push(name)?;
        Ok(())
    }

    /// Declares that the item and the item of this name may be ambiguous. Where an allocation fails nothing is declared.
    pub fn add_ambiguous_with(&mut self, name: String) -> Result<(), AllocError>
        ensures ok { OnOk result (self.new
            ≡ record self.old {
              ambiguous_with = self.old.ambiguous_with
                  ++ string_bytes name ∷ [];
            }) }
        ensures err { OnErr result (self.new ≡ self.old) }
    {
        self.ambiguous_with.push(name)?;
        Ok(())
    }

    /// Declares that the item runs on this condition, besides those that it has. Where an allocation fails nothing is declared.
    pub fn add_condition(&mut self, condition: Cond) -> Result<(), AllocError>
        ensures ok { OnOk result (self.new
            ≡ record self.old { conditions = self.old.conditions ++ condition ∷ [] }) }
        ensures err { OnErr result (self.new ≡ self.old) }
    {
        self.conditions.push(condition)?;
        Ok(())
    }

    /// The name.
    pub fn name(&self) -> &str
        ensures { result.now ≡ self.now.name }
    {
        self.name.as_str()
    }

    /// The names of the sets that it is in, as declared.
    pub fn inside(&self) -> &[String]
        ensures { map string_bytes result.now ≡ self.now.inside }
    {
        self.inside.as_slice()
    }

    /// The names of the items that it runs before, as declared.
    pub fn before(&self) -> &[String]
        ensures { map string_bytes result.now ≡ self.now.before }
    {
        self.before.as_slice()
    }

    /// The names of the items that it runs after, as declared.
    pub fn after(&self) -> &[String]
        ensures { map string_bytes result.now ≡ self.now.after }
    {
        self.after.as_slice()
    }

    /// The names of the items that it runs before whatever commands are deferred, as declared.
    pub fn before_ignore_deferred(&self) -> &[String]
        ensures { map string_bytes result.now ≡ self.now.before_ignore_deferred }
    {
        self.before_ignore_deferred.as_slice()
    }

    /// The names of the items that it runs after whatever commands are deferred, as declared.
    pub fn after_ignore_deferred(&self) -> &[String]
        ensures { map string_bytes result.now ≡ self.now.after_ignore_deferred }
    {
        self.after_ignore_deferred.as_slice()
    }

    /// The names of the items with which it may be ambiguous, as declared.
    pub fn ambiguous_with(&self) -> &[String]
        ensures { map string_bytes result.now ≡ self.now.ambiguous_with }
    {
        self.ambiguous_with.as_slice()
    }

    /// The conditions on which it runs, as declared.
    pub fn conditions(&self) -> &[Cond]
        ensures { result.now ≡ self.now.conditions }
    {
        self.conditions.as_slice()
    }

    /// The conditions alone.
    pub fn into_conditions(self) -> Vec<Cond>
        ensures { result.items ≡ self.conditions }
    {
        let ItemDesc {
            name: _,
            inside: _,
            before: _,
            after: _,
            before_ignore_deferred: _,
            after_ignore_deferred: _,
            ambiguous_with: _,
            conditions,
        } = self;
        conditions
    }
}

/// A declared system: an item with parameters.
pub struct SystemDesc {
    item: ItemDesc,
    params: Params,
}

// One function drops it wherever it is let go.
impl Drop for SystemDesc {
    fn drop(self) {
        let SystemDesc { item: _, params: _ } = self;
    }
}

impl Model for SystemDesc {
    ghost use Rattle.model.specs.declarations.Declarations.{DeclaredSystem};
    ghost use Rattle.model.specs.declarations.Codes.{declared_system_code};

    ghost Value = { DeclaredSystem };

    ghost coded = { declared_system_code };

    ghost view = { λ s. record { item = s.item; params = s.params } };
}

impl SystemDesc {
    /// A system with this name and these parameters, in no set, before and after nothing.
    pub fn new(alloc: Global, name: String, params: Params) -> Self
        ensures { result ≡ record { item = plain_item (string_bytes name); params = params } }
    {
        SystemDesc {
            item: ItemDesc::new(alloc, name),
            params,
        }
    }

    /// A system of an item with these parameters.
    pub fn of_item(item: ItemDesc, params: Params) -> Self
        ensures { result ≡ record { item = item; params = params } }
    {
        SystemDesc { item, params }
    }

    /// Declares that the system is in the set of this name. Where an allocation fails nothing is declared.
    pub fn add_in(&mut self, name: String) -> Result<(), AllocError>
        ensures ok { OnOk result (self.new
            ≡ record self.old {
              item = record self.old.item {
                inside = self.old.item.inside
                    ++ string_bytes name ∷ [];
              };
            }) }
        ensures err { OnErr result (self.new ≡ self.old) }
    {
        self.item.add_in(name)
    }

    /// Declares that the system runs before the item of this name. Where an allocation fails nothing is declared.
    pub fn add_before(&mut self, name: String) -> Result<(), AllocError>
        ensures ok { OnOk result (self.new
            ≡ record self.old {
              item = record self.old.item {
                before = self.old.item.before
                    ++ string_bytes name ∷ [];
              };
            }) }
        ensures err { OnErr result (self.new ≡ self.old) }
    {
        self.item.add_before(name)
    }

    /// Declares that the system runs after the item of this name. Where an allocation fails nothing is declared.
    pub fn add_after(&mut self, name: String) -> Result<(), AllocError>
        ensures ok { OnOk result (self.new
            ≡ record self.old {
              item = record self.old.item {
                after = self.old.item.after
                    ++ string_bytes name ∷ [];
              };
            }) }
        ensures err { OnErr result (self.new ≡ self.old) }
    {
        self.item.add_after(name)
    }

    /// Declares that the system runs on this condition, besides those that it has. Where an allocation fails nothing is declared.
    pub fn add_condition(&mut self, condition: Cond) -> Result<(), AllocError>
        ensures ok { OnOk result (self.new
            ≡ record self.old {
              item = record self.old.item {
                conditions =
                    self.old.item.conditions
                    ++ condition ∷ [];
              };
            }) }
        ensures err { OnErr result (self.new ≡ self.old) }
    {
        self.item.add_condition(condition)
    }

    /// Its item: all but its parameters.
    pub fn item(&self) -> &ItemDesc
        ensures { result.now ≡ self.now.item }
    {
        &self.item
    }

    /// The parameters.
    pub fn params(&self) -> &Params
        ensures { result.now ≡ self.now.params }
    {
        &self.params
    }

    /// The item and the parameters.
    pub fn into_parts(self) -> (ItemDesc, Params)
        ensures { result ≡ (self.item, self.params) }
    {
        let SystemDesc { item, params } = self;
        (item, params)
    }
}

/// A declared chain: items by name, each of which runs before the next, and whether these orders ignore that commands are deferred.
pub struct ChainDesc {
    items: Vec<String>,
    ignores_deferred: bool,
}

// One function drops it wherever it is let go.
impl Drop for ChainDesc {
    fn drop(self) {
        let ChainDesc {
            items: _,
            ignores_deferred: _,
        } = self;
    }
}

impl Model for ChainDesc {
    ghost use Rattle.std.specs.Prelude.{map, string_bytes};
    ghost use Rattle.model.specs.declarations.Declarations.{DeclaredChain};
    ghost use Rattle.model.specs.declarations.Codes.{chain_code};

    ghost Value = { DeclaredChain };

    ghost coded = { chain_code };

    ghost view = { λ c. record {
      items = map string_bytes c.items.items;
      ignores_deferred = c.ignores_deferred;
    } };
}

impl ChainDesc {
    /// The chain without items.
    pub fn new(alloc: Global, ignores_deferred: bool) -> Self
        ensures { result ≡ record { items = []; ignores_deferred = ignores_deferred } }
    {
        ChainDesc {
            items: Vec::new(alloc),
            ignores_deferred,
        }
    }

    /// Adds the item of this name at the end. Where an allocation fails nothing is added.
    pub fn add_item(&mut self, name: String) -> Result<(), AllocError>
        ensures ok { OnOk result (self.new
            ≡ record self.old { items = self.old.items ++ string_bytes name ∷ [] }) }
        ensures err { OnErr result (self.new ≡ self.old) }
    {
        self.items.push(name)?;
        Ok(())
    }

    /// The names of the items, in order.
    pub fn items(&self) -> &[String]
        ensures { map string_bytes result.now ≡ self.now.items }
    {
        self.items.as_slice()
    }

    /// Whether the orders ignore that commands are deferred.
    pub fn ignores_deferred(&self) -> bool
        ensures { result ≡ self.now.ignores_deferred }
    {
        self.ignores_deferred
    }
}

/// A declared schedule: its sets, its systems and its chains, each in declared order. Sets are items before systems, whichever were
/// declared first.
pub struct ScheduleDesc {
    sets: Vec<ItemDesc>,
    systems: Vec<SystemDesc>,
    chains: Vec<ChainDesc>,
}

// One function drops it wherever it is let go.
impl Drop for ScheduleDesc {
    fn drop(self) {
        let ScheduleDesc {
            sets: _,
            systems: _,
            chains: _,
        } = self;
    }
}

impl Model for ScheduleDesc {
    ghost use Rattle.model.specs.declarations.Declarations.{Declared};
    ghost use Rattle.model.specs.declarations.Codes.{declared_code};

    ghost Value = { Declared };

    ghost coded = { declared_code };

    ghost view = { λ d. record {
      sets = d.sets.items;
      systems = d.systems.items;
      chains = d.chains.items;
    } };
}

impl ScheduleDesc {
    /// The schedule without sets, systems and chains.
    pub fn new(alloc: Global) -> Self
        ensures { result ≡ record { sets = []; systems = []; chains = [] } }
    {
        ScheduleDesc {
            sets: Vec::new(alloc),
            systems: Vec::new(alloc),
            chains: Vec::new(alloc),
        }
    }

    /// Declares a set after the others. Where an allocation fails nothing is declared.
    pub fn add_set(&mut self, set: ItemDesc) -> Result<(), AllocError>
        ensures ok { OnOk result (self.new ≡ record self.old { sets = self.old.sets ++ set ∷ [] }) }
        ensures err { OnErr result (self.new ≡ self.old) }
    {
        self.sets.push(set)?;
        Ok(())
    }

    /// Declares a system after the others. Where an allocation fails nothing is declared.
    pub fn add_system(&mut self, system: SystemDesc) -> Result<(), AllocError>
        ensures ok { OnOk result (self.new
            ≡ record self.old { systems = self.old.systems ++ system ∷ [] }) }
        ensures err { OnErr result (self.new ≡ self.old) }
    {
        self.systems.push(system)?;
        Ok(())
    }

    /// Declares a chain after the others. Where an allocation fails nothing is declared.
    pub fn add_chain(&mut self, chain: ChainDesc) -> Result<(), AllocError>
        ensures ok { OnOk result (self.new
            ≡ record self.old { chains = self.old.chains ++ chain ∷ [] }) }
        ensures err { OnErr result (self.new ≡ self.old) }
    {
        self.chains.push(chain)?;
        Ok(())
    }

    /// The chains, in declared order.
    pub fn chains(&self) -> &[ChainDesc]
        ensures { result.now ≡ self.now.chains }
    {
        self.chains.as_slice()
    }

    /// The sets, in declared order.
    pub fn sets(&self) -> &[ItemDesc]
        ensures { result.now ≡ self.now.sets }
    {
        self.sets.as_slice()
    }

    /// The systems, in declared order.
    pub fn systems(&self) -> &[SystemDesc]
        ensures { result.now ≡ self.now.systems }
    {
        self.systems.as_slice()
    }

    /// The system of a number among the systems.
    pub fn system(&self, number: usize) -> &SystemDesc
        requires { number < length self.now.systems }
        ensures { result.now ≡ declared_at self.now number }
    {
        &self.systems[number]
    }

    /// How many items there are.
    pub fn count(&self) -> usize
        ensures { result ≡ length (items_of self.now) }
    {
        self.sets.len() + self.systems.len()
    }

    /// The item of a number.
    pub fn item(&self, number: usize) -> &ItemDesc
        requires { number < length (items_of self.now) }
        ensures { result.now ≡ item_at self.now number }
    {
        if number < self.sets.len() {
            &self.sets[number]
        } else {
            self.system(number - self.sets.len()).item()
        }
    }

    /// The sets and the systems, each in declared order.
    pub fn into_items(self) -> (Vec<ItemDesc>, Vec<SystemDesc>)
        ensures sets { result.0.items ≡ self.sets }
        ensures systems { result.1.items ≡ self.systems }
    {
        let ScheduleDesc {
            sets,
            systems,
            chains: _,
        } = self;
        (sets, systems)
    }
}
