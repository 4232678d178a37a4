//! What a thread promises.
ghost use Rattle.go_threads.specs.Backs.{IsBack};

use crate::back::{Back, Serves};
use std::thread::Promise;

impl Promise<Back> for Serves {
    ghost kept_by = { λ p r. IsBack p.0.value p.1.value r };
}
