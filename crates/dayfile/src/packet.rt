// The packet by which a fault ends the run.
ghost use Rattle.std.specs.Prelude.{◌≡◌, ◌+◌, ◌≤◌, ◌++◌, length, decimal};
ghost use Rattle.dayfile.specs.Packet.{layer_name, fault_text, plus_packet, fault_packet};

use fields::frame::Frame;
use rules::fault::{FileFault, Layer};

// A text of its own for each layer: what is shown goes into a frame, which is no text writer.
fn layer_name(layer: Layer) -> &'static str
    ensures text { result.now ≡ layer_name layer }
    ensures fits { length (layer_name layer) ≤ 7 }
{
    match layer {
        Layer::File => "file",
        Layer::Message => "message",
        Layer::Engine => "engine",
    }
}

// The decimal digits of a number, the highest first. By hand: a call of a text writer can fail, and a frame's cannot.
fn put_decimal(frame: &mut Frame, n: u128)
    requires { length frame.old + length (decimal n) ≤ 80 }
    ensures { frame.new ≡ frame.old ++ decimal n }
{
    if n >= 10 {
        put_decimal(frame, n / 10);
    }
    frame.put(b'0' + (n % 10) as u8);
}

// The name of the layer, the number and the place, with a space between.
fn fault_text(layer: Layer, number: u8, place: u128) -> Frame
    ensures bytes { result ≡ fault_text layer number place }
    ensures fits { length (fault_text layer number place) ≤ 77 }
{
    let mut text = Frame::new();
    text.put_bytes(layer_name(layer).as_bytes());
    text.put(b' ');
    put_decimal(&mut text, u128::from(number));
    text.put(b' ');
    put_decimal(&mut text, place);
    text
}

// A Soup packet of the letter +.
fn plus_packet(text: &[u8]) -> Frame
    requires { length text.now ≤ 77 }
    ensures { result ≡ plus_packet text.now }
{
    let mut packet = Frame::new();
    packet.put(1 + text.len() as u16);
    packet.put(b'+');
    packet.put_bytes(text);
    packet
}

// The packet of a fault in the record whose tag is at a place of the file.
pub fn fault_packet(fault: FileFault, at: u64) -> Frame
    ensures { result ≡ fault_packet fault at }
{
    let text = fault_text(fault.layer(), u8::from(fault), fault.place(at));
    plus_packet(text.bytes())
}
