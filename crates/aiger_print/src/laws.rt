//! What the printers write reads back.

ghost use Rattle.std.specs.Prelude.{◌≡◌, ◌+◌, ◌≤◌, length};
ghost use Rattle.aig_net.specs.declared.parts.NetParts.{NetParts};
ghost use Rattle.aig_net.specs.Nets.{IsNet};
ghost use Rattle.aiger_body.specs.Outcomes.{outcome, read};
ghost use Rattle.aiger_print.specs.Printed.{aag_text, aig_text};

/// The text of a net of at most 1,048,576 variables is that of no other, where it has at most
/// 67,108,864 bytes.
pub fn printed_reads_back()
    ensures aag { (net : NetParts) → IsNet net →
        net.inputs + length net.latches + length net.ands ≤ 1048576 →
        length (aag_text net) ≤ 67108864 → outcome (aag_text net) ≡ read net }
    ensures aig { (net : NetParts) → IsNet net →
        net.inputs + length net.latches + length net.ands ≤ 1048576 →
        length (aig_text net) ≤ 67108864 → outcome (aig_text net) ≡ read net }
{}
