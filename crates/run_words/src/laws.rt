// Laws about the definitions. Each function has an empty body, and its contract is the law.
ghost use Rattle.run_words.specs.Words.{OneIsOrdered, OrderedAreTasks};

/// Words order one task at most.
pub fn one_task_is_ordered()
    ensures { OneIsOrdered }
{}

/// The settings of a task that is ordered are within their ranges.
pub fn ordered_tasks_are_in_range()
    ensures { OrderedAreTasks }
{}
