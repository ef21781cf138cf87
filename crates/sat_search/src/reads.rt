//! Reads and writes of lists that do nothing past the end.

pub(crate) fn number_at(numbers: &[usize], k: usize) -> usize {
    if k < numbers.len() { numbers[k] } else { 0 }
}

pub(crate) fn flag_at(flags: &[bool], k: usize) -> bool {
    if k < flags.len() { flags[k] } else { false }
}

pub(crate) fn set_number(numbers: &mut [usize], k: usize, number: usize) {
    if k < numbers.len() {
        numbers[k] = number;
    }
}

pub(crate) fn set_flag(flags: &mut [bool], k: usize, flag: bool) {
    if k < flags.len() {
        flags[k] = flag;
    }
}
