// What was asked, and how much of it was not the scan's.
use paper::orders::{Item, Order, Paged};
use std::io;
use std::io::Stdout;

#[derive(Clone, Copy, Default)]
pub struct Tally {
    claims: u64,
    pages: u64,
    far: u64,
    refused: u64,
    items: u64,
    lasts: u64,
    firsts: u64,
    nothing: u64,
    wrong: u64,
}

fn add(count: &mut u64, n: u64) {
    *count = count.wrapping_add(n);
}

impl Tally {
    // A run that is refused would leave a table without claims, and every answer right.
    pub fn table(&mut self, claims: usize) {
        add(&mut self.claims, claims as u64);
    }

    // None is a refusal.
    pub fn page(&mut self, order: Order, answer: Option<Paged>, right: bool) {
        add(&mut self.pages, 1);
        add(&mut self.far, u64::from(matches!(order, Order::Far)));
        match answer {
            None => add(&mut self.refused, 1),
            Some(paged) => {
                add(&mut self.items, paged.count as u64);
                add(&mut self.lasts, u64::from(paged.last));
            }
        }
        add(&mut self.wrong, u64::from(!right));
    }

    pub fn first(&mut self, answer: Option<Item>, right: bool) {
        add(&mut self.firsts, 1);
        add(&mut self.nothing, u64::from(answer.is_none()));
        add(&mut self.wrong, u64::from(!right));
    }

    pub fn show(&self, out: Stdout) -> io::Result<()> {
        println!(out; "{} claims", self.claims)?;
        println!(out;
            "{} pages, of them in far order {}, refused for a mark beyond the reach {}",
            self.pages, self.far, self.refused
        )?;
        println!(out; "{} items, {} last pages", self.items, self.lasts)?;
        println!(out;
            "{} nearest and farthest, of them nothing {}",
            self.firsts, self.nothing
        )?;
        println!(out; "{} not the scan's", self.wrong)
    }
}
