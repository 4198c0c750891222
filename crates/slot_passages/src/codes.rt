//! The code of a program.

use slot_controls::Step;
use slot_parsers::ParserCode;
use slot_places::SlotHeader;

/// A control: the steps that set its variables first, and those of its body.
pub struct ControlCode {
    pub settings: Vec<Step>,
    pub body: Vec<Step>,
}

impl Drop for ControlCode {
    fn drop(self) {
        let ControlCode {
            settings: _settings,
            body: _body,
        } = self;
    }
}

/// A program: where the fields of its headers begin, its parser, its controls, and the numbers of the
/// headers that its deparser emits, in order.
pub struct ProgramCode {
    pub headers: Vec<SlotHeader>,
    pub parser: ParserCode,
    pub verify: ControlCode,
    pub ingress: ControlCode,
    pub egress: ControlCode,
    pub compute: ControlCode,
    pub emits: Vec<u32>,
}

impl Drop for ProgramCode {
    fn drop(self) {
        let ProgramCode {
            headers: _headers,
            parser: _parser,
            verify: _verify,
            ingress: _ingress,
            egress: _egress,
            compute: _compute,
            emits: _emits,
        } = self;
    }
}
