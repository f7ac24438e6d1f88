// Inner: not part of the public interface.
use nak::Form;

// What the header's first four octets say: the form, I and Q, and so H; the length field.
#[derive(Clone, Copy)]
pub struct Header {
    pub form: Form,
    pub entity_length: usize,
    pub number_length: usize,
    pub length: usize,
    pub data_length: usize,
}
