// What the calls on a patch block give.
#![tactic(auto)]

use page::PageRow;
use ring::Ring;

// What a removal gives: its page row, and the ring or chain.
#[derive(Clone, Copy)]
pub struct Removed {
    pub page: PageRow,
    pub ring: Ring,
}
