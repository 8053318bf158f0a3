// Each call on both targets: on the one that is lent to it (`host::lent`), and on the other by value (`host::by_value`).
use crate::said;
use host::{by_value, lent};
use matching::layout::{Entry, Request};
use state::layout::{CounterTest, Settings, Target};
use std::io;
use std::io::Stdout;

// The target that is lent, and the one that is handed over by value, each with a memory.
#[derive(Clone, Copy)]
pub struct Pair {
    stdout: Stdout,
    pub lent: Target,
    pub value: Target,
    lent_memory: [u8; 64],
    value_memory: [u8; 64],
}

impl Pair {
    // Places for two targets.
    pub fn places(stdout: Stdout) -> Pair {
        Pair {
            stdout,
            lent: Target::empty(0),
            value: Target::empty(0),
            lent_memory: [0; 64],
            value_memory: [0; 64],
        }
    }

    pub fn new(&mut self, k: usize, size: u32) -> io::Result<()> {
        let a = lent::new(&mut self.lent, Settings { size });
        let b = by_value::new(Settings { size });
        self.value = b.target;
        said::say_new(self.stdout, b"lent  ", k, a)?;
        said::say_new(self.stdout, b"value ", k, b.answer)
    }

    pub fn append(&mut self, k: usize, e: Entry) -> io::Result<()> {
        let a = lent::append(&mut self.lent, e);
        let b = by_value::append(self.value, e);
        self.value = b.target;
        said::say_answer(self.stdout, b"lent  ", k, a)?;
        said::say_answer(self.stdout, b"value ", k, b.answer)
    }

    pub fn put(&mut self, k: usize, q: Request, payload: &[u8]) -> io::Result<()> {
        let a = lent::put(&mut self.lent, &mut self.lent_memory, q, payload);
        let b = by_value::put(self.value, &mut self.value_memory, q, payload);
        self.value = b.target;
        said::say_answer(self.stdout, b"lent  ", k, a)?;
        said::say_answer(self.stdout, b"value ", k, b.answer)
    }

    pub fn ready(&self, k: usize, test: CounterTest) -> io::Result<()> {
        let a = lent::ready(&self.lent, test);
        let b = by_value::ready(self.value, test);
        said::say_ready(self.stdout, b"lent  ", k, a)?;
        said::say_ready(self.stdout, b"value ", k, b)
    }

    // Two lists, as document 01 names them.
    pub fn poll(&self, k: usize, ks: &[u64], tests: &[u64]) -> io::Result<()> {
        let a = lent::poll(&self.lent, ks, tests);
        let b = by_value::poll(self.value, ks, tests);
        said::say_poll(self.stdout, b"lent  ", k, a)?;
        said::say_poll(self.stdout, b"value ", k, b)
    }
}
