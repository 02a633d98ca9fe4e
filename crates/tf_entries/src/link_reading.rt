ghost use Rattle.std.specs.Prelude.{◌≡◌, suc, map, Some, IfOk, IfErr};
ghost use Rattle.tf_flow.specs.Outline.{condition_of, decision_of, connection_of};
ghost use Rattle.tf_entries.specs.PlanReading as form;
ghost use Rattle.tf_entries.specs.Reading.{RefusesForm, read_list};

use crate::reader::Reader;
use std::alloc::Global;
use tf_flow::{Decider, Depth, Link, Links, Test, Tests};
use tf_values::MakeFault;

impl Reader<'_> {
    /// Links behind their number.
    #[tactic(auto, unfolding(crate::specs::PlanReading::read_links))]
    pub fn links(&mut self, alloc: Global) -> Result<Links, MakeFault>
        ensures ok { IfOk result (λ links. form.read_links self.old ≡ Some (map connection_of links, self.new)) }
        ensures refused { IfErr result (RefusesForm (form.read_links self.old)) }
    {
        let count = self.u16()?;
        let mut links = Vec::new(alloc);
        for _ in 0..count {
            links.push(self.link(alloc)?)?;
        }
        Ok(Links::make(links))
    }

    /// A link.
    fn link(&mut self, alloc: Global) -> Result<Link, MakeFault>
        ensures ok { IfOk result (λ link. form.read_link self.old ≡ Some (connection_of link, self.new)) }
        ensures refused { IfErr result (RefusesForm (form.read_link self.old)) }
    {
        Ok(Link {
            from: self.name()?,
            to: self.name()?,
            decider: self.decider(alloc)?,
        })
    }

    /// A decider, where there is one.
    fn decider(&mut self, alloc: Global) -> Result<Option<Decider>, MakeFault>
        ensures ok { IfOk result (λ decider. form.read_decision self.old ≡ Some (decision_of decider, self.new)) }
        ensures refused { IfErr result (RefusesForm (form.read_decision self.old)) }
    {
        match self.byte()? {
            0 => Ok(None),
            1 => self.decided(alloc),
            _ => Err(MakeFault::No),
        }
    }

    /// A decider.
    fn decided(&mut self, alloc: Global) -> Result<Option<Decider>, MakeFault>
        ensures ok { IfOk result (λ decider. form.read_decided self.old ≡ Some (decision_of decider, self.new)) }
        ensures refused { IfErr result (RefusesForm (form.read_decided self.old)) }
    {
        let depth = self.depth()?;
        let test = self.test(alloc, 16)?;
        Ok(Some(Decider { test, depth }))
    }

    fn depth(&mut self) -> Result<Depth, MakeFault>
        ensures ok { IfOk result (λ depth. form.read_depth self.old ≡ Some (depth, self.new)) }
        ensures refused { IfErr result (RefusesForm (form.read_depth self.old)) }
    {
        match self.byte()? {
            0 => Ok(Depth::All),
            1 => Ok(Depth::Flow),
            2 => Ok(Depth::Neighbors),
            3 => Ok(Depth::Atom),
            _ => Err(MakeFault::No),
        }
    }

    /// A test, where `left` may stand in one another.
    #[cycle(tests)]
    #[tactic(auto, using(crate::proofs::TestLemmas::test_below))]
    fn test(&mut self, alloc: Global, left: u8) -> Result<Test, MakeFault>
        ensures ok { IfOk result (λ test. form.read_test left self.old ≡ Some (condition_of test, self.new)) }
        ensures refused { IfErr result (RefusesForm (form.read_test left self.old)) }
    {
        if left == 0 {
            return Err(MakeFault::No);
        }
        self.test_over(alloc, left - 1)
    }

    /// A test, where `left` may stand in one another within it.
    #[cycle(tests)]
    #[tactic(auto, using(crate::proofs::TestLemmas::tests_as_trees))]
    fn test_over(&mut self, alloc: Global, left: u8) -> Result<Test, MakeFault>
        ensures ok { IfOk result (λ test. form.read_test (suc left) self.old ≡ Some (condition_of test, self.new)) }
        ensures refused { IfErr result (RefusesForm (form.read_test (suc left) self.old)) }
    {
        match self.byte()? {
            0 => self.same(alloc),
            1 => self.below(),
            2 => self.above(),
            3 => self.negated(alloc, left),
            4 => Ok(Test::All(Tests::make(self.tests(alloc, left)?))),
            5 => Ok(Test::Any(Tests::make(self.tests(alloc, left)?))),
            _ => Err(MakeFault::No),
        }
    }

    /// That a test isn't true.
    #[cycle(tests)]
    #[tactic(auto, using(crate::proofs::TestLemmas::tests_as_trees))]
    fn negated(&mut self, alloc: Global, left: u8) -> Result<Test, MakeFault>
        ensures ok { IfOk result (λ test. form.read_not (form.read_test left) self.old
            ≡ Some (condition_of test, self.new)) }
        ensures refused { IfErr result (RefusesForm (form.read_not (form.read_test left) self.old)) }
    {
        let inside = self.test(alloc, left)?;
        Ok(Test::Not(Box::new(alloc, inside)?))
    }

    /// Tests behind their number.
    #[cycle(tests)]
    fn tests(&mut self, alloc: Global, left: u8) -> Result<Vec<Test>, MakeFault>
        ensures ok { IfOk result (λ tests. read_list (form.read_test left) self.old
            ≡ Some (map condition_of tests.items, self.new)) }
        ensures refused { IfErr result (RefusesForm (read_list (form.read_test left) self.old)) }
    {
        let count = self.u16()?;
        let mut tests = Vec::new(alloc);
        for _ in 0..count {
            tests.push(self.test(alloc, left)?)?;
        }
        Ok(tests)
    }

    /// That a result is a value.
    #[tactic(auto, using(crate::proofs::TestLemmas::tests_as_trees))]
    fn same(&mut self, alloc: Global) -> Result<Test, MakeFault>
        ensures ok { IfOk result (λ test. form.read_same self.old ≡ Some (condition_of test, self.new)) }
        ensures refused { IfErr result (RefusesForm (form.read_same self.old)) }
    {
        let name = self.name()?;
        let wanted = self.value(alloc)?;
        Ok(Test::Is(name, wanted))
    }

    /// That a result is below an integer.
    #[tactic(auto, using(crate::proofs::TestLemmas::tests_as_trees))]
    fn below(&mut self) -> Result<Test, MakeFault>
        ensures ok { IfOk result (λ test. form.read_below self.old ≡ Some (condition_of test, self.new)) }
        ensures refused { IfErr result (RefusesForm (form.read_below self.old)) }
    {
        let name = self.name()?;
        let limit = self.i64()?;
        Ok(Test::Below(name, limit))
    }

    /// That a result is above an integer.
    #[tactic(auto, using(crate::proofs::TestLemmas::tests_as_trees))]
    fn above(&mut self) -> Result<Test, MakeFault>
        ensures ok { IfOk result (λ test. form.read_above self.old ≡ Some (condition_of test, self.new)) }
        ensures refused { IfErr result (RefusesForm (form.read_above self.old)) }
    {
        let name = self.name()?;
        let limit = self.i64()?;
        Ok(Test::Above(name, limit))
    }
}
