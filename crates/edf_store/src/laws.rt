//! Stores in memory have a law: the contract of a function whose body is empty.

ghost use Rattle.sqlite_trees.specs.declared.memory.MemStore.{MemStore};
ghost use Rattle.sqlite.specs.Held.{Held, state};
ghost use Rattle.sqlite.specs.State.{HasCleanDisk};
ghost use Rattle.sqlite.specs.Steps.{over_memory};

/// The disk of a store in memory is always clean, so that clauses say what each call returns.
pub fn memory_stays_clean()
    ensures { (conn : Held MemStore) → HasCleanDisk (state over_memory conn) }
{}
