// The 1,024 classes (document 01): what kind of instruction the ten bits 29-20 of a word make it.
// A class is a number, and the table a constant of numbers, as document 01 has them:
// 0 comparison, 1 always halts, 2 main write, 3 port write, 4 5 6 destination A X Y, 7 destination P always, 8 if B, 9 if not B.
ghost use Rattle.std.specs.Prelude.{◌≡◌};
ghost use Rattle.instruction.specs.Classes.{Classified, class_of_word};

pub const CLASSES: [u8; 1024] = [
    4, 1, 4, 4, 4, 4, 4, 4, 4, 4, 4, 4, 4, 1, 1, 1, // msf 0, dsf 0, csf 0: fsf 0 to 15
    0, 0, 0, 0, 0, 0, 0, 0, 0, 0, 0, 0, 0, 0, 0, 0, // msf 0, dsf 0, csf 1: fsf 0 to 15
    5, 1, 5, 5, 5, 5, 5, 5, 5, 5, 5, 5, 5, 1, 1, 1, // msf 0, dsf 1, csf 0: fsf 0 to 15
    0, 0, 0, 0, 0, 0, 0, 0, 0, 0, 0, 0, 0, 0, 0, 0, // msf 0, dsf 1, csf 1: fsf 0 to 15
    6, 1, 6, 6, 6, 6, 6, 6, 6, 6, 6, 6, 6, 1, 1, 1, // msf 0, dsf 2, csf 0: fsf 0 to 15
    0, 0, 0, 0, 0, 0, 0, 0, 0, 0, 0, 0, 0, 0, 0, 0, // msf 0, dsf 2, csf 1: fsf 0 to 15
    1, 7, 1, 7, 1, 7, 1, 7, 1, 1, 1, 1, 1, 1, 1, 1, // msf 0, dsf 3, csf 0: fsf 0 to 15
    0, 0, 0, 0, 0, 0, 0, 0, 0, 0, 0, 0, 0, 0, 0, 0, // msf 0, dsf 3, csf 1: fsf 0 to 15
    1, 8, 1, 8, 1, 8, 1, 8, 1, 1, 1, 1, 1, 1, 1, 1, // msf 0, dsf 4, csf 0: fsf 0 to 15
    0, 0, 0, 0, 0, 0, 0, 0, 0, 0, 0, 0, 0, 0, 0, 0, // msf 0, dsf 4, csf 1: fsf 0 to 15
    1, 9, 1, 9, 1, 9, 1, 9, 1, 1, 1, 1, 1, 1, 1, 1, // msf 0, dsf 5, csf 0: fsf 0 to 15
    0, 0, 0, 0, 0, 0, 0, 0, 0, 0, 0, 0, 0, 0, 0, 0, // msf 0, dsf 5, csf 1: fsf 0 to 15
    1, 1, 1, 1, 1, 1, 1, 1, 1, 1, 1, 1, 1, 1, 1, 1, // msf 0, dsf 6, csf 0: fsf 0 to 15
    0, 0, 0, 0, 0, 0, 0, 0, 0, 0, 0, 0, 0, 0, 0, 0, // msf 0, dsf 6, csf 1: fsf 0 to 15
    1, 1, 1, 1, 1, 1, 1, 1, 1, 1, 1, 1, 1, 1, 1, 1, // msf 0, dsf 7, csf 0: fsf 0 to 15
    0, 0, 0, 0, 0, 0, 0, 0, 0, 0, 0, 0, 0, 0, 0, 0, // msf 0, dsf 7, csf 1: fsf 0 to 15
    4, 1, 4, 4, 4, 4, 4, 4, 4, 4, 4, 4, 4, 1, 1, 1, // msf 1, dsf 0, csf 0: fsf 0 to 15
    0, 0, 0, 0, 0, 0, 0, 0, 0, 0, 0, 0, 0, 0, 0, 0, // msf 1, dsf 0, csf 1: fsf 0 to 15
    5, 1, 5, 5, 5, 5, 5, 5, 5, 5, 5, 5, 5, 1, 1, 1, // msf 1, dsf 1, csf 0: fsf 0 to 15
    0, 0, 0, 0, 0, 0, 0, 0, 0, 0, 0, 0, 0, 0, 0, 0, // msf 1, dsf 1, csf 1: fsf 0 to 15
    6, 1, 6, 6, 6, 6, 6, 6, 6, 6, 6, 6, 6, 1, 1, 1, // msf 1, dsf 2, csf 0: fsf 0 to 15
    0, 0, 0, 0, 0, 0, 0, 0, 0, 0, 0, 0, 0, 0, 0, 0, // msf 1, dsf 2, csf 1: fsf 0 to 15
    1, 7, 1, 7, 1, 7, 1, 7, 1, 1, 1, 1, 1, 1, 1, 1, // msf 1, dsf 3, csf 0: fsf 0 to 15
    0, 0, 0, 0, 0, 0, 0, 0, 0, 0, 0, 0, 0, 0, 0, 0, // msf 1, dsf 3, csf 1: fsf 0 to 15
    1, 8, 1, 8, 1, 8, 1, 8, 1, 1, 1, 1, 1, 1, 1, 1, // msf 1, dsf 4, csf 0: fsf 0 to 15
    0, 0, 0, 0, 0, 0, 0, 0, 0, 0, 0, 0, 0, 0, 0, 0, // msf 1, dsf 4, csf 1: fsf 0 to 15
    1, 9, 1, 9, 1, 9, 1, 9, 1, 1, 1, 1, 1, 1, 1, 1, // msf 1, dsf 5, csf 0: fsf 0 to 15
    0, 0, 0, 0, 0, 0, 0, 0, 0, 0, 0, 0, 0, 0, 0, 0, // msf 1, dsf 5, csf 1: fsf 0 to 15
    3, 3, 3, 3, 3, 3, 3, 3, 3, 3, 3, 3, 3, 3, 3, 3, // msf 1, dsf 6, csf 0: fsf 0 to 15
    0, 0, 0, 0, 0, 0, 0, 0, 0, 0, 0, 0, 0, 0, 0, 0, // msf 1, dsf 6, csf 1: fsf 0 to 15
    2, 2, 2, 2, 2, 2, 2, 2, 2, 2, 2, 2, 2, 2, 2, 2, // msf 1, dsf 7, csf 0: fsf 0 to 15
    0, 0, 0, 0, 0, 0, 0, 0, 0, 0, 0, 0, 0, 0, 0, 0, // msf 1, dsf 7, csf 1: fsf 0 to 15
    4, 1, 4, 4, 4, 4, 4, 4, 4, 4, 4, 4, 4, 1, 1, 1, // msf 2, dsf 0, csf 0: fsf 0 to 15
    0, 0, 0, 0, 0, 0, 0, 0, 0, 0, 0, 0, 0, 0, 0, 0, // msf 2, dsf 0, csf 1: fsf 0 to 15
    5, 1, 5, 5, 5, 5, 5, 5, 5, 5, 5, 5, 5, 1, 1, 1, // msf 2, dsf 1, csf 0: fsf 0 to 15
    0, 0, 0, 0, 0, 0, 0, 0, 0, 0, 0, 0, 0, 0, 0, 0, // msf 2, dsf 1, csf 1: fsf 0 to 15
    6, 1, 6, 6, 6, 6, 6, 6, 6, 6, 6, 6, 6, 1, 1, 1, // msf 2, dsf 2, csf 0: fsf 0 to 15
    0, 0, 0, 0, 0, 0, 0, 0, 0, 0, 0, 0, 0, 0, 0, 0, // msf 2, dsf 2, csf 1: fsf 0 to 15
    1, 7, 1, 7, 1, 7, 1, 7, 1, 1, 1, 1, 1, 1, 1, 1, // msf 2, dsf 3, csf 0: fsf 0 to 15
    0, 0, 0, 0, 0, 0, 0, 0, 0, 0, 0, 0, 0, 0, 0, 0, // msf 2, dsf 3, csf 1: fsf 0 to 15
    1, 8, 1, 8, 1, 8, 1, 8, 1, 1, 1, 1, 1, 1, 1, 1, // msf 2, dsf 4, csf 0: fsf 0 to 15
    0, 0, 0, 0, 0, 0, 0, 0, 0, 0, 0, 0, 0, 0, 0, 0, // msf 2, dsf 4, csf 1: fsf 0 to 15
    1, 9, 1, 9, 1, 9, 1, 9, 1, 1, 1, 1, 1, 1, 1, 1, // msf 2, dsf 5, csf 0: fsf 0 to 15
    0, 0, 0, 0, 0, 0, 0, 0, 0, 0, 0, 0, 0, 0, 0, 0, // msf 2, dsf 5, csf 1: fsf 0 to 15
    3, 3, 3, 3, 3, 3, 3, 3, 3, 3, 3, 3, 3, 3, 3, 3, // msf 2, dsf 6, csf 0: fsf 0 to 15
    0, 0, 0, 0, 0, 0, 0, 0, 0, 0, 0, 0, 0, 0, 0, 0, // msf 2, dsf 6, csf 1: fsf 0 to 15
    2, 2, 2, 2, 2, 2, 2, 2, 2, 2, 2, 2, 2, 2, 2, 2, // msf 2, dsf 7, csf 0: fsf 0 to 15
    0, 0, 0, 0, 0, 0, 0, 0, 0, 0, 0, 0, 0, 0, 0, 0, // msf 2, dsf 7, csf 1: fsf 0 to 15
    4, 1, 4, 4, 4, 4, 4, 4, 4, 4, 4, 4, 4, 1, 1, 1, // msf 3, dsf 0, csf 0: fsf 0 to 15
    0, 0, 0, 0, 0, 0, 0, 0, 0, 0, 0, 0, 0, 0, 0, 0, // msf 3, dsf 0, csf 1: fsf 0 to 15
    5, 1, 5, 5, 5, 5, 5, 5, 5, 5, 5, 5, 5, 1, 1, 1, // msf 3, dsf 1, csf 0: fsf 0 to 15
    0, 0, 0, 0, 0, 0, 0, 0, 0, 0, 0, 0, 0, 0, 0, 0, // msf 3, dsf 1, csf 1: fsf 0 to 15
    6, 1, 6, 6, 6, 6, 6, 6, 6, 6, 6, 6, 6, 1, 1, 1, // msf 3, dsf 2, csf 0: fsf 0 to 15
    0, 0, 0, 0, 0, 0, 0, 0, 0, 0, 0, 0, 0, 0, 0, 0, // msf 3, dsf 2, csf 1: fsf 0 to 15
    1, 7, 1, 7, 1, 7, 1, 7, 1, 1, 1, 1, 1, 1, 1, 1, // msf 3, dsf 3, csf 0: fsf 0 to 15
    0, 0, 0, 0, 0, 0, 0, 0, 0, 0, 0, 0, 0, 0, 0, 0, // msf 3, dsf 3, csf 1: fsf 0 to 15
    1, 8, 1, 8, 1, 8, 1, 8, 1, 1, 1, 1, 1, 1, 1, 1, // msf 3, dsf 4, csf 0: fsf 0 to 15
    0, 0, 0, 0, 0, 0, 0, 0, 0, 0, 0, 0, 0, 0, 0, 0, // msf 3, dsf 4, csf 1: fsf 0 to 15
    1, 9, 1, 9, 1, 9, 1, 9, 1, 1, 1, 1, 1, 1, 1, 1, // msf 3, dsf 5, csf 0: fsf 0 to 15
    0, 0, 0, 0, 0, 0, 0, 0, 0, 0, 0, 0, 0, 0, 0, 0, // msf 3, dsf 5, csf 1: fsf 0 to 15
    3, 3, 3, 3, 3, 3, 3, 3, 3, 3, 3, 3, 3, 3, 3, 3, // msf 3, dsf 6, csf 0: fsf 0 to 15
    0, 0, 0, 0, 0, 0, 0, 0, 0, 0, 0, 0, 0, 0, 0, 0, // msf 3, dsf 6, csf 1: fsf 0 to 15
    2, 2, 2, 2, 2, 2, 2, 2, 2, 2, 2, 2, 2, 2, 2, 2, // msf 3, dsf 7, csf 0: fsf 0 to 15
    0, 0, 0, 0, 0, 0, 0, 0, 0, 0, 0, 0, 0, 0, 0, 0, // msf 3, dsf 7, csf 1: fsf 0 to 15
];

// The table of the classes, made once and lent.
#[derive(Clone, Copy, Debug, PartialEq, Eq)]
pub struct ClassTable {
    entries: [u8; 1024],
    ghost classified: { Classified entries },
}

impl ClassTable {
    pub fn new() -> ClassTable {
        ClassTable { entries: CLASSES }
    }

    // The class of a word.
    pub fn class_of(&self, w: u32) -> u8
        ensures { result ≡ class_of_word w }
    {
        let k = (w / 0x10_0000 % 1024) as usize;
        self.entries[k]
    }
}
