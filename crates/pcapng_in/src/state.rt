ghost use Rattle.std.specs.Prelude.{◌≡◌, ◌+◌, ◌∷◌, [], ◌++◌, ◌≤◌, length, All, OnOk};
ghost use Rattle.pcap_io.specs.declared.form.ByteOrder.{ByteOrder};
ghost use Rattle.pcap_io.specs.declared.form.ByteOrder.TheVariants.{Little};
ghost use Rattle.pcapng_in.specs.Blocks.{least_length};
ghost use Rattle.pcapng_in.specs.Interfaces.{interface_fault, interface_of};
ghost use Rattle.pcapng_in.specs.Packets.{HasRate, enhanced_fault, enhanced_header, simple_fault, simple_header, packet_at};
ghost use Rattle.pcapng_in.specs.State.{first_state, section_fault, with_section, with_interface, with_packet, content_fault, with_content};
ghost use Rattle.pcapng_in.specs.Answers.{seen, Steps};

use crate::blocks::{ENHANCED, INTERFACE, SECTION, SIMPLE, Shape};
use crate::fault::NgFault;
use crate::interface::{Interface, read_interface};
use crate::packets::{PacketHeader, read_enhanced, read_simple};
use mn_base::{Bytes, NoMemory, Refusal};
use pcap_io::{ByteOrder, Packet};
use std::alloc::Global;

/// What a file has said up to a place.
#[derive(Drop)]
pub struct State {
    /// Where the next block stands: its offset in the file, in bytes.
    pub place: u32,
    /// The byte order of the section.
    pub order: ByteOrder,
    /// The interfaces of the section so far.
    pub interfaces: Vec<Interface>,
    /// The link type of the file's first interface.
    pub link_type: Option<u32>,
    pub packets: Vec<Packet>,
    /// The time of the packet before, in ns, or 0.
    pub last_ns: u64,
}

impl State {
    /// At the start of a file. A section header reads the same in either byte order.
    pub fn new(alloc: Global) -> State
        ensures { seen result ≡ first_state }
    {
        State {
            place: 0,
            order: ByteOrder::Little,
            interfaces: Vec::new(alloc),
            link_type: None,
            packets: Vec::new(alloc),
            last_ns: 0,
        }
    }

    fn read_section(&mut self, order: ByteOrder, text: &[u8]) -> Result<(), Refusal<NgFault>>
        requires { 28 ≤ length text.now }
        ensures { Steps (section_fault self.old.place order text.now) (with_section order (seen self.old)) self.new result }
    {
        if order.half(text, 12) != 1 {
            return Err(Refusal::Fault(NgFault::Version(self.place)));
        }
        self.order = order;
        self.interfaces.clear();
        Ok(())
    }

    fn add_interface(&mut self, interface: Interface) -> Result<(), NoMemory>
        ensures { OnOk result (seen self.new ≡ with_interface interface (seen self.old)) }
    {
        self.interfaces.push(interface)?;
        if self.link_type.is_none() {
            self.link_type = Some(interface.link_type);
        }
        Ok(())
    }

    fn read_interface(
        &mut self,
        order: ByteOrder,
        len: u32,
        text: &[u8],
    ) -> Result<(), Refusal<NgFault>>
        requires least { 20 ≤ len }
        requires whole { len ≤ length text.now }
        ensures { Steps (interface_fault self.old.place self.old.link_type order len text.now)
            (with_interface (interface_of order len text.now) (seen self.old)) self.new result }
    {
        match read_interface(self.place, self.link_type, order, len, text) {
            Err(fault) => Err(Refusal::Fault(fault)),
            Ok(interface) => {
                self.add_interface(interface)?;
                Ok(())
            }
        }
    }

    /// Adds the packet whose captured bytes stand at an offset of its block.
    fn add_packet(
        &mut self,
        alloc: Global,
        header: PacketHeader,
        offset: usize,
        text: &[u8],
    ) -> Result<(), NoMemory>
        requires { offset + header.captured ≤ length text.now }
        ensures { OnOk result (seen self.new ≡ with_packet (packet_at offset header text.now) (seen self.old)) }
    {
        let (_, behind) = text.split_at(offset);
        let (captured, _) = behind.split_at(header.captured as usize);
        let bytes = Bytes::copy(alloc, captured)?;
        self.packets.push(Packet {
            time_ns: header.time_ns,
            original: header.original,
            bytes,
        })?;
        self.last_ns = header.time_ns;
        Ok(())
    }

    fn read_enhanced(
        &mut self,
        alloc: Global,
        order: ByteOrder,
        len: u32,
        text: &[u8],
    ) -> Result<(), Refusal<NgFault>>
        requires least { 32 ≤ len }
        requires whole { len ≤ length text.now }
        requires rates { All HasRate self.old.interfaces.items }
        ensures { Steps (enhanced_fault self.old.place (length self.old.packets.items) self.old.interfaces.items order len text.now)
            (with_packet (packet_at 28 (enhanced_header self.old.interfaces.items order text.now) text.now) (seen self.old)) self.new result }
    {
        let interfaces = self.interfaces.as_slice();
        match read_enhanced(self.place, self.packets.len(), interfaces, order, len, text) {
            Err(fault) => Err(Refusal::Fault(fault)),
            Ok(header) => {
                self.add_packet(alloc, header, 28, text)?;
                Ok(())
            }
        }
    }

    fn read_simple(
        &mut self,
        alloc: Global,
        order: ByteOrder,
        len: u32,
        text: &[u8],
    ) -> Result<(), Refusal<NgFault>>
        requires least { 16 ≤ len }
        requires whole { len ≤ length text.now }
        ensures { Steps (simple_fault self.old.place (length self.old.packets.items) self.old.interfaces.items order len text.now)
            (with_packet (packet_at 12 (simple_header self.old.interfaces.items self.old.last_ns order text.now) text.now) (seen self.old)) self.new result }
    {
        let interfaces = self.interfaces.as_slice();
        let count = self.packets.len();
        match read_simple(
            self.place,
            count,
            interfaces,
            self.last_ns,
            order,
            len,
            text,
        ) {
            Err(fault) => Err(Refusal::Fault(fault)),
            Ok(header) => {
                self.add_packet(alloc, header, 12, text)?;
                Ok(())
            }
        }
    }

    /// Reads the block of this shape that opens the text.
    pub fn read_block(
        &mut self,
        alloc: Global,
        shape: Shape,
        text: &[u8],
    ) -> Result<(), Refusal<NgFault>>
        requires least { least_length shape.kind ≤ shape.len }
        requires whole { shape.len ≤ length text.now }
        requires rates { All HasRate self.old.interfaces.items }
        ensures { Steps (content_fault shape.order shape.kind shape.len text.now (seen self.old))
            (with_content shape.order shape.kind shape.len text.now (seen self.old)) self.new result }
    {
        match shape.kind {
            SECTION => self.read_section(shape.order, text),
            INTERFACE => self.read_interface(shape.order, shape.len, text),
            ENHANCED => self.read_enhanced(alloc, shape.order, shape.len, text),
            SIMPLE => self.read_simple(alloc, shape.order, shape.len, text),
            _ => Ok(()),
        }
    }
}
