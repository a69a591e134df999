//! The instances that are live, by their numbers.

ghost use Rattle.std.specs.Prelude.{◌≡◌, ◌==◌, ℕ, None, find, option_map, is_some, IfOk, OnOk};
ghost use Rattle.saved_checks.specs.Live.{Notes, target_in};

use saved_parts::ToldInstance;
use std::alloc::{AllocError, Global};
use std::collections::BTreeMap;

/// The targets of instances, by the numbers of these.
#[derive(Debug, Drop)]
pub(crate) struct LiveTargets {
    pub(crate) targets: BTreeMap<u64, u64>,
}

impl LiveTargets {
    // No instances. It takes no memory.
    fn new(alloc: Global) -> LiveTargets
        ensures { (number : ℕ) → target_in result number ≡ None }
    {
        LiveTargets {
            targets: BTreeMap::new(alloc),
        }
    }

    // Notes the target of an instance; where one with its number was noted, that stays.
    fn note(&mut self, number: u64, target: u64) -> Result<(), AllocError>
        ensures { OnOk result (Notes self.old self.new number target) }
    {
        if self.targets.contains_key(&number) {
            return Ok(());
        }
        self.targets.insert(number, target)?;
        Ok(())
    }

    /// The target of the instance with the number, if it is live.
    pub(crate) fn get(&self, number: u64) -> Option<u64>
        ensures { result ≡ target_in self.now number }
    {
        self.targets.get(&number).copied()
    }

    /// Whether the instance with the number is live.
    pub(crate) fn has(&self, number: u64) -> bool
        ensures { result ≡ is_some (target_in self.now number) }
    {
        self.get(number).is_some()
    }

    /// The targets of these instances; of several with one number the first counts.
    pub(crate) fn of(alloc: Global, instances: &[ToldInstance]) -> Result<LiveTargets, AllocError>
        ensures { IfOk result (λ live. (number : ℕ) → target_in live number ≡ option_map (λ i. i.of) (find (λ i. i.number == number) instances.now)) }
    {
        let mut live = LiveTargets::new(alloc);
        for instance in instances {
            live.note(instance.number, instance.of)?;
        }
        Ok(live)
    }
}
