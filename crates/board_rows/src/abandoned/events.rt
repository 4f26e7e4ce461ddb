//! What is done before calls on events are abandoned, and what stands then.
use crate::row::Part;

/// `m` notifies the set too.
pub(super) const ANOTHER_NOTIFIER: Part = "
    begin m notifier x bits ev | ok
    step m                     | table = ok
";

/// `m` notifies the queue too.
pub(super) const ANOTHER_OF_THE_QUEUE: Part = "
    begin m notifier x queue q | ok
    step m                     | table = ok
";

/// `n` notified an id of each word of the set.
pub(super) const TWO_OF_THE_SET: Part = "
    begin n notify n 1  | ok
    step n              | listener bits:ev yes
    step n              | set bits:ev 1
    step n              | post bits:ev = ok
    begin n notify n 65 | ok
    step n              | listener bits:ev yes
    step n              | set bits:ev 65
    step n              | post bits:ev = ok
";

/// `n` notified two ids of the queue.
pub(super) const TWO_OF_THE_QUEUE: Part = "
    begin n notify n 7 | ok
    step n             | push queue:q = ok
    begin n notify n 8 | ok
    step n             | push queue:q = ok
";

/// `e` is abandoned.
pub(super) const E_LEFT: Part = "
    abandon e | gone
    step e    | refused abandoned
    drop e e  | refused abandoned
";

/// `n` is abandoned.
pub(super) const N_LEFT: Part = "
    abandon n | gone
    step n    | refused abandoned
";

/// The listener of the set is still found, and it holds the name after all notifiers were dropped.
pub(super) const THE_SET_STANDS: Part = "
    begin n notify n 1         | ok
    step n                     | listener bits:ev yes
    step n                     | set bits:ev 1
    step n                     | post bits:ev = ok
    begin m notifier z bits ev | ok
    step m                     | table = ok
    drop n n                   | table = ok
    drop m x                   | table = ok
    drop m z                   | table = ok
    begin m listen y bits ev 0 | ok
    step m                     | table = ListenerCreateError::AlreadyExists
";

/// The listener of the queue counts as gone for those that notify, new ones too, and it holds the name.
pub(super) const THE_QUEUE_IS_GONE: Part = "
    begin n notify n 9         | ok
    step n                     | push queue:q = NotifierNotifyError::Disconnected
    begin m notifier z queue q | ok
    step m                     | table = ok
    begin m notify z 9         | ok
    step m                     | push queue:q = NotifierNotifyError::Disconnected
    drop n n                   | table = ok
    drop m x                   | table = ok
    drop m z                   | table = ok
    begin m listen y queue q   | ok
    step m                     | table = ListenerCreateError::AlreadyExists
";

/// `e` is notified by `m`. The name is held by the notifier of `n` after all others were dropped.
pub(super) const STILL_A_SET: Part = "
    begin m notify x 1         | ok
    step m                     | listener bits:ev yes
    step m                     | set bits:ev 1
    step m                     | post bits:ev = ok
    drop e e                   | table = ok
    drop m x                   | table = ok
    begin m listen y bits ev 0 | ok
    step m                     | table = ListenerCreateError::AlreadyExists
";

/// `e` finds nothing.
pub(super) const NOTHING_IS_FOUND: Part = "
    begin e wait e all try | ok
    step e                 | signal bits:ev no
    step e                 | swap bits:ev 0 0
    step e                 | swap bits:ev 1 0 = none
    step e                 | refused idle
";

/// `e` finds the id without a signal.
pub(super) const AN_ID_IS_FOUND: Part = "
    begin e wait e all try | ok
    step e                 | signal bits:ev no
    step e                 | swap bits:ev 0 0
    step e                 | swap bits:ev 1 2 = ids 65
    step e                 | refused idle
";

/// `e` finds the id and its signal.
pub(super) const A_SIGNALLED_ID_IS_FOUND: Part = "
    begin e wait e all try | ok
    step e                 | signal bits:ev yes
    step e                 | signal bits:ev no
    step e                 | swap bits:ev 0 0
    step e                 | swap bits:ev 1 2 = ids 65
";

/// `e` is notified by `m`. The name goes with the listener, although there are notifiers.
pub(super) const STILL_A_QUEUE: Part = "
    begin m notify x 8       | ok
    step m                   | push queue:q = ok
    begin m listen y queue q | ok
    step m                   | table = ListenerCreateError::AlreadyExists
    drop e e                 | table = ok
    begin m notify x 9       | ok
    step m                   | push queue:q = NotifierNotifyError::Disconnected
    begin m listen y queue q | ok
    step m                   | table = ok
";

/// `e` finds two signals and takes both.
pub(super) const TWO_SIGNALS: Part = "
    step e | signal bits:ev yes
    step e | signal bits:ev yes
    step e | signal bits:ev no
";

/// It takes the lower id.
pub(super) const AN_ID_CLEARED: Part = "
    step e | scan bits:ev 0 2
    step e | clear bits:ev 1 = id 1
";

/// `e` finds no signal, and no id in either word, as it looks for one of them.
pub(super) const NOTHING_SCANNED: Part = "
    step e | signal bits:ev no
    step e | scan bits:ev 0 0
    step e | scan bits:ev 1 0
";

/// The same, as it looks for all.
pub(super) const NOTHING_SWAPPED: Part = "
    step e | signal bits:ev no
    step e | swap bits:ev 0 0
    step e | swap bits:ev 1 0
";

/// Then it waits for a signal.
pub(super) const NO_SIGNAL: Part = "
    step e | signal bits:ev no
    step e | signal bits:ev no
    step e | signal bits:ev no
    step e | signal bits:ev no
    step e | signal bits:ev no
";

/// It waits for an id in a queue.
pub(super) const NOTHING_POPPED: Part = "
    step e | pop queue:q none
    step e | pop queue:q none
    step e | pop queue:q none
    step e | pop queue:q none
";

/// The name of the set is held, and another listener doesn't get it.
pub(super) const THE_SET_IS_HELD: Part = "
    begin m listen y bits ev 0 | ok
    step m                     | table = ListenerCreateError::AlreadyExists
";

/// It is free.
pub(super) const THE_SET_IS_FREE: Part = "
    begin m listen y bits ev 0 | ok
    step m                     | table = ok
";

/// The name of the queue is held.
pub(super) const THE_QUEUE_IS_HELD: Part = "
    begin m listen y queue q | ok
    step m                   | table = ListenerCreateError::AlreadyExists
";

/// It is free.
pub(super) const THE_QUEUE_IS_FREE: Part = "
    begin m listen y queue q | ok
    step m                   | table = ok
";

/// `e` drops its listener.
pub(super) const E_DROPS_IT: Part = "drop e e | table = ok";
