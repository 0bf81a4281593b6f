use crate::form::Form;

/// The longest piece at the front of a text: its form, and how many bytes it has.
#[derive(Clone, Copy, Debug)]
pub struct Found {
    pub form: Form,
    pub len: usize,
}
