//! The text of a net from a file.
ghost use Rattle.std.specs.Prelude.{IfOk};
ghost use Rattle.commands.specs.Call.{sources_of};
ghost use Rattle.commands.specs.NetCharts.{RefusesNet, SaysNet};
ghost use Rattle.commands.specs.Reading.{FileGives};
ghost use Rattle.net_text.specs.NetTexts.{IsNetText, net_text_of};
ghost use Rattle.net_text.specs.declared.limits.TheConstants.{NET_TEXT_LIMIT};

use crate::file::{FileEnd, read_text};
use flow_base::Inputs;
use net_text::{NET_TEXT_LIMIT, NetFault, NetText, read_net};
use std::alloc::Global;

/// Reads the file of that name as the text of a net.
pub(crate) fn read_net_file<I: Inputs>(
    alloc: Global,
    inputs: &mut I,
    net_file: &str,
) -> Result<NetText, FileEnd<NetFault>>
    ensures given { FileGives NET_TEXT_LIMIT (λ text net. SaysNet text (net_text_of net)) RefusesNet
        (sources_of I.Inputs inputs.old) (sources_of I.Inputs inputs.new) net_file.now result }
    ensures within { IfOk result (λ net. IsNetText (net_text_of net)) }
{
    let text = read_text(
        alloc,
        inputs,
        net_file,
        NET_TEXT_LIMIT,
        NetFault::TextTooLong,
    )?;
    match read_net(alloc, &text) {
        Ok(net) => Ok(net),
        Err(NetFault::Memory) => Err(FileEnd::Memory),
        Err(fault) => Err(FileEnd::Refused(fault)),
    }
}
