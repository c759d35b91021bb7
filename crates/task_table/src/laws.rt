//! The laws of tasks and their order, as contracts of functions that do nothing.

ghost use Rattle.std.specs.Prelude.{◌≡◌, ◌⊎◌, ◌↔◌, ℕ, ◌<◌, List, ◌++◌, length};
ghost use Rattle.module_vec.specs.declared.places.Term.{Term};
ghost use Rattle.outcomes.specs.declared.tasks.Task.{Task};
ghost use Rattle.task_table.specs.declared.order.Order.{Order as TheOrder};
ghost use Rattle.task_table.specs.declared.states.TaskState.{TaskState as TheState};
ghost use Rattle.task_table.specs.Tasks.{IsTask, number_of};
ghost use Rattle.task_table.specs.Orders.{Before, rank};
ghost use Rattle.task_table.specs.Tables.{Table, IsTable, put, state_of};

/// The order of tasks is a strict total order.
pub fn order_is_total()
    ensures total { (order : TheOrder) (entries : List (List Term)) (t u : Task) →
        Before order entries t u ⊎ ((t ≡ u) ⊎ Before order entries u t) }
    ensures strict { (order : TheOrder) (entries : List (List Term)) (t : Task) → Before order entries t t → ⊥ }
    ensures transitive { (order : TheOrder) (entries : List (List Term)) (t u v : Task) →
        Before order entries t u → Before order entries u v → Before order entries t v }
{}

/// Appended entries change neither the rank of an old task nor the order of old tasks.
pub fn old_tasks_keep_their_order()
    ensures rank { (order : TheOrder) (entries more : List (List Term)) (t : Task) → IsTask (length entries) t →
        rank order (entries ++ more) t ≡ rank order entries t }
    ensures order { (order : TheOrder) (entries more : List (List Term)) (t u : Task) →
        IsTask (length entries) t → IsTask (length entries) u → Before order (entries ++ more) t u
        ↔ Before order entries t u }
{}

/// Two tasks have two numbers, so that a table has a state for each.
pub fn numbers_are_apart()
    ensures { (t u : Task) → t.i < t.j → u.i < u.j → number_of t ≡ number_of u → t ≡ u }
{}

/// A task that gets a state has it, and all others keep theirs.
pub fn one_state_is_put()
    ensures here { (table : Table) (t : Task) (s : TheState) → IsTable table → IsTask table.count t
        → state_of (put table t s) t ≡ s }
    ensures elsewhere { (table : Table) (t u : Task) (s : TheState) → IsTable table → IsTask table.count t
        → IsTask table.count u →
        (state_of (put table t s) u ≡ state_of table u) ⊎ (u ≡ t) }
{}
