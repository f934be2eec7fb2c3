//! What may go to another thread, where the value may: the desk is shared, passes and turns are
//! handed over.
use crate::{Desk, Kept, Pass, Turn};

fn shared<T: Sync>() {}

fn handed_over<T: Send>() {}

fn crosses<V: Kept + Send>() {
    shared::<Desk<V>>();
    handed_over::<Desk<V>>();
    handed_over::<Pass<V>>();
    handed_over::<Turn<V>>();
}
