// The small port's two languages as images.
ghost use Rattle.std.specs.Prelude.{◌≡◌, None};
ghost use Rattle.demands.specs.Check.{image_check};
ghost use Rattle.view.specs.Grammar.{image_meaning};
ghost use Rattle.port.specs.SmallPort.{Q as quay, B as bridge};

// The image of language Q: head, dimensions, functions, words, rules, symbols, spelled bytes.
const QUAY: &[u8; 144] = b"CNC\x01\0\x02\x04\0\x03\0\x04\0\x07\0\x0f\0\
    \x01\x01\
    \0\x01\x01\0\0\
    \x01\0\0\0\0\
    \x01\0\0\0\0\
    \0\x01\0\0\0\
    \0\0\x04\
    \x04\0\x05\
    \x09\0\x06\
    \0\0\0\0\0\0\0\x02\0\0\0\0\0\0\0\0\0\
    \x01\0\0\0\0\x02\0\x01\0\0\0\0\0\0\0\0\0\
    \x02\0\0\0\0\x03\0\x01\0\0\0\0\0\0\0\0\0\
    \x03\0\0\0\0\x04\0\x03\0\0\0\0\0\0\0\0\0\
    \0\0\0\x80\x01\0\x01\0\0\x80\x02\0\0\x80\
    holdthreerepeat";

// The image of language B.
const BRIDGE: &[u8; 163] = b"CNC\x01\0\x02\x04\0\x05\0\x04\0\x09\0\x18\0\
    \x01\x01\
    \0\x01\x01\0\0\
    \x01\0\0\0\0\
    \x01\0\0\0\0\
    \0\x01\0\0\0\
    \0\0\x06\
    \x06\0\x03\
    \x09\0\x03\
    \x0c\0\x06\
    \x12\0\x06\
    \0\0\0\0\0\0\0\x02\0\0\0\0\0\0\0\0\0\
    \x01\0\0\0\0\x02\0\x02\0\0\0\0\0\0\0\0\0\
    \x02\0\0\0\0\x04\0\x02\0\0\0\0\0\0\0\0\0\
    \x03\0\0\0\0\x06\0\x03\0\0\0\0\0\0\0\0\0\
    \0\0\0\x80\x01\0\x02\0\x03\0\x02\0\0\x80\x04\0\0\x80\
    beholdkaitretrossegjenta";

// A sound image that states language Q.
pub fn quay_image() -> [u8; 144]
    ensures sound { image_check result ≡ None }
    ensures states { image_meaning result ≡ quay }
{
    *QUAY
}

// A sound image that states language B.
pub fn bridge_image() -> [u8; 163]
    ensures sound { image_check result ≡ None }
    ensures states { image_meaning result ≡ bridge }
{
    *BRIDGE
}
