// First bytes 0a and 0b: how calls are made.
use crate::fields;

const ROOMS: u8 = 0x0a;

const FORM: u8 = 0x0b;

// Whether rooms are filled and tested, and whether calls are made by value.
#[derive(Clone, Copy)]
pub(crate) struct Manner {
    pub is_tested: bool,
    pub is_by_value: bool,
}

impl Manner {
    pub(crate) fn first() -> Manner {
        Manner {
            is_tested: true,
            is_by_value: false,
        }
    }

    // After a record, which may be any.
    pub(crate) fn after(self, first: u8, s: &[u8]) -> Manner {
        Manner {
            is_tested: flag_after(self.is_tested, first == ROOMS, s),
            is_by_value: flag_after(self.is_by_value, first == FORM, s),
        }
    }
}

fn flag_after(old: bool, is_set: bool, s: &[u8]) -> bool {
    if is_set { fields::flag(s, 0) } else { old }
}
