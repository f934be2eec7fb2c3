//! Edits of the tables.
ghost use Rattle.std.specs.Prelude.{◌≡◌, Ok, Some, None, OnOk, OnErr, IfOk, IfErr};
ghost use Rattle.rail_model.specs.declared.edit.Edit.TheVariants as edit;
ghost use Rattle.rail_model.specs.declared.items.Item.TheVariants as item;
ghost use Rattle.rail_model.specs.Rules.{rule_of, rule_of_put, rule_of_change, rule_of_drop, after, after_put, after_change, after_drop};
ghost use Rattle.line_tables.specs.AnswersEdit.{AnswersEdit};
ghost use Rattle.line_tables.specs.References.{rule_before_put, rule_before_change};

use crate::LineTables;
use rail_model::{Block, Edit, Item, Kind, Name, OutOfMemory, Rule, Signal, is_signal_within};

impl LineTables {
    /// Makes an edit, or says which rule refuses it: the first that does, in the order of
    /// `rule_of`. The tables stay as they were where a rule refuses the edit or memory runs out.
    pub fn apply(&mut self, edit: &Edit) -> Result<Result<(), Rule>, OutOfMemory>
        ensures refused { IfOk result
            (λ answer. IfErr answer (λ rule. rule_of self.old edit.now ≡ Some rule)) }
        ensures accepted { IfOk result (λ answer. OnOk answer (rule_of self.old edit.now ≡ None)) }
        ensures after { IfOk result (λ answer. OnOk answer (self.new ≡ after self.old edit.now)) }
        ensures kept { IfOk result (λ answer. OnErr answer (self.new ≡ self.old)) }
        ensures kept_without_memory { OnErr result (self.new ≡ self.old) }
    {
        let own = edit.copy(self.alloc)?;
        self.take(own)
    }

    /// Makes an edit that is given away, as `apply` does: its item moves into the tables.
    pub fn take(&mut self, edit: Edit) -> Result<Result<(), Rule>, OutOfMemory>
        ensures refused { IfOk result
            (λ answer. IfErr answer (λ rule. rule_of self.old edit ≡ Some rule)) }
        ensures accepted { IfOk result (λ answer. OnOk answer (rule_of self.old edit ≡ None)) }
        ensures after { IfOk result (λ answer. OnOk answer (self.new ≡ after self.old edit)) }
        ensures kept { IfOk result (λ answer. OnErr answer (self.new ≡ self.old)) }
        ensures kept_without_memory { OnErr result (self.new ≡ self.old) }
    {
        match edit {
            Edit::Put(item) => self.put(item),
            Edit::Change(item) => self.change(item),
            Edit::Drop(kind, name) => Ok(self.drop_named(kind, &name)),
        }
    }

    /// Puts an item, which moves into the tables, as the edit does that puts it.
    #[inline]
    pub fn put(&mut self, item: Item) -> Result<Result<(), Rule>, OutOfMemory>
        ensures { AnswersEdit (rule_of self.old (edit.Put item)) (after self.old (edit.Put item))
            result self.old self.new }
    {
        if let Some(rule) = self.rule_before_put(&item)? {
            // One call lets the item go, whatever it holds.
            drop(item);
            return Ok(Err(rule));
        }
        self.add(item)
    }

    /// Puts a block, as `put` does. A block by itself takes less room than an item of any kind.
    #[inline]
    pub fn put_block(&mut self, block: Block) -> Result<Result<(), Rule>, OutOfMemory>
        ensures { AnswersEdit (rule_of self.old (edit.Put (item.Block block)))
            (after self.old (edit.Put (item.Block block))) result self.old self.new }
    {
        if let Some(rule) = self.rule_of_block(&block) {
            return Ok(Err(rule));
        }
        self.add_block(block)?;
        Ok(Ok(()))
    }

    /// Changes an item, which moves into the tables, as the edit does that changes it.
    #[inline]
    pub fn change(&mut self, item: Item) -> Result<Result<(), Rule>, OutOfMemory>
        ensures { AnswersEdit (rule_of self.old (edit.Change item)) (after self.old (edit.Change item))
            result self.old self.new }
    {
        if let Some(rule) = self.rule_before_change(&item)? {
            drop(item);
            return Ok(Err(rule));
        }
        self.replace(item)
    }

    /// Changes a signal, as `change` does. A signal by itself takes less room than an item of any
    /// kind.
    #[inline]
    pub fn change_signal(&mut self, signal: Signal) -> Result<Result<(), Rule>, OutOfMemory>
        ensures { AnswersEdit (rule_of self.old (edit.Change (item.Signal signal)))
            (after self.old (edit.Change (item.Signal signal))) result self.old self.new }
    {
        if !is_signal_within(&signal) {
            return Ok(Err(Rule::Range));
        }
        self.replace_signal(signal)
    }

    /// Drops the item of a kind and a name, as the edit does that drops it.
    pub fn drop_named(&mut self, kind: Kind, name: &Name) -> Result<(), Rule>
        ensures { AnswersEdit (rule_of self.old (edit.Drop kind name.now))
            (after self.old (edit.Drop kind name.now)) (Ok result) self.old self.new }
    {
        if let Some(rule) = self.rule_of_drop(kind, name) {
            return Err(rule);
        }
        self.remove(kind, name);
        Ok(())
    }

    fn add(&mut self, item: Item) -> Result<Result<(), Rule>, OutOfMemory>
        requires { rule_before_put self.old item ≡ None }
        ensures { AnswersEdit (rule_of_put self.old item) (after_put self.old item)
            result self.old self.new }
    {
        match item {
            Item::Block(block) => self.add_block(block)?,
            Item::Signal(signal) => self.add_signal(signal)?,
            Item::Route(route) => return self.put_route(&route),
            Item::Run(run) => self.add_run(run)?,
            Item::Section(section) => self.add_section(section)?,
            Item::Connection(connection) => self.add_connection(connection)?,
        }
        Ok(Ok(()))
    }

    fn replace(&mut self, item: Item) -> Result<Result<(), Rule>, OutOfMemory>
        requires { rule_before_change self.old item ≡ None }
        ensures { AnswersEdit (rule_of_change self.old item) (after_change self.old item)
            result self.old self.new }
    {
        match item {
            Item::Block(block) => self.replace_block(block),
            Item::Signal(signal) => return self.replace_signal(signal),
            Item::Route(route) => return self.replace_route(&route),
            Item::Run(run) => self.replace_run(run)?,
            Item::Section(section) => self.replace_section(section)?,
            Item::Connection(connection) => self.replace_connection(connection)?,
        }
        Ok(Ok(()))
    }

    fn remove(&mut self, kind: Kind, name: &Name)
        requires { rule_of_drop self.old kind name.now ≡ None }
        ensures { self.new ≡ after_drop self.old kind name.now }
    {
        match kind {
            Kind::Block => self.remove_block(name),
            Kind::Signal => self.remove_signal(name),
            Kind::Route => self.remove_route(name),
            Kind::Run => self.remove_run(name),
            Kind::Section => self.remove_section(name),
            Kind::Connection => self.remove_connection(name),
        }
    }
}
