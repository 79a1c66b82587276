// What tests ask of a plan and of an inode.

use stable::Plan;
use v7_layout::Inode;

/// The sectors of up to four puts, in their order.
pub fn sectors_put(plan: &Plan) -> [u32; 4] {
    let mut sectors = [0; 4];
    let mut count = 0;
    for put in plan.puts() {
        if count < 4 {
            sectors[count] = put.0;
            count += 1;
        }
    }
    sectors
}

/// When an inode was read, written and changed.
pub fn times(inode: &Inode) -> [u32; 3] {
    [inode.atime, inode.mtime, inode.ctime]
}
