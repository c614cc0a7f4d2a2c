use std::sync::{Condvar, Mutex, Wait};

/// A flag for which one thread waits, and which others set.
#[derive(Drop)]
pub(crate) struct Bell {
    is_rung: Mutex<bool>,
    rung: Condvar,
}

impl Bell {
    /// Creates a bell that was not rung.
    pub(crate) fn new() -> Bell {
        Bell {
            is_rung: Mutex::new(false),
            rung: Condvar::new(),
        }
    }

    /// Rings the bell: wakes the thread that waits, or lets the next wait return at once.
    pub(crate) fn ring<R: Wait>(&self, rt: &R) {
        let mut is_rung = self.is_rung.lock(rt);
        *is_rung = true;
        self.rung.notify_all();
    }

    /// Waits until the bell is rung, or was rung since the last wait.
    pub(crate) fn wait<R: Wait>(&self, rt: &R) {
        let mut is_rung = self
            .rung
            .wait_while(rt, self.is_rung.lock(rt), |is_rung| !*is_rung);
        *is_rung = false;
    }
}
