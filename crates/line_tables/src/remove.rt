//! Taking the item of a kind and a name out of the tables. No rule refuses it.
ghost use Rattle.std.specs.Prelude.{◌≡◌, None};
ghost use Rattle.rail_model.specs.declared.edit.Kind.TheVariants as kind;
ghost use Rattle.rail_model.specs.Rules.{rule_of_drop, after_drop};

use crate::LineTables;
use crate::linked::take_linked;
use rail_model::Name;

impl LineTables {
    pub(crate) fn remove_block(&mut self, name: &Name)
        requires { rule_of_drop self.old kind.Block name.now ≡ None }
        ensures { self.new ≡ after_drop self.old kind.Block name.now }
    {
        self.blocks.take(name);
    }

    pub(crate) fn remove_signal(&mut self, name: &Name)
        requires { rule_of_drop self.old kind.Signal name.now ≡ None }
        ensures { self.new ≡ after_drop self.old kind.Signal name.now }
    {
        take_linked(&mut self.signals, &mut self.block_uses, name);
    }

    pub(crate) fn remove_route(&mut self, name: &Name)
        requires { rule_of_drop self.old kind.Route name.now ≡ None }
        ensures { self.new ≡ after_drop self.old kind.Route name.now }
    {
        self.signals.learn_order();
        let key = self.routes.key_of(name).unwrap();
        let refs = self.routes.get(key).refs.slice();
        self.route_sets.take(&self.signals, refs, key);
        take_linked(&mut self.routes, &mut self.signal_uses, name);
    }

    pub(crate) fn remove_run(&mut self, name: &Name)
        requires { rule_of_drop self.old kind.Run name.now ≡ None }
        ensures { self.new ≡ after_drop self.old kind.Run name.now }
    {
        take_linked(&mut self.runs, &mut self.route_uses, name);
    }

    pub(crate) fn remove_section(&mut self, name: &Name)
        requires { rule_of_drop self.old kind.Section name.now ≡ None }
        ensures { self.new ≡ after_drop self.old kind.Section name.now }
    {
        take_linked(&mut self.sections, &mut self.block_uses, name);
    }

    pub(crate) fn remove_connection(&mut self, name: &Name)
        requires { rule_of_drop self.old kind.Connection name.now ≡ None }
        ensures { self.new ≡ after_drop self.old kind.Connection name.now }
    {
        take_linked(&mut self.connections, &mut self.run_uses, name);
    }
}
