// The fields of each command in the order of the layouts: IDm, codes, blocks, fixed fields, package.
ghost use Rattle.std.specs.Prelude.{◌≡◌, List, ◌++◌, ℕ};
ghost use Rattle.felica_command.specs.Types.{node_property_byte, encryption_byte, packet_byte};
ghost use Rattle.felica_put.specs.Output.{Puts};
ghost use Rattle.felica_text.specs.Text.{byte_text};
ghost use Rattle.felica_fields.specs.Field.{byte_field, word_field, first_field, second_field, blocks_field, data_field, issue_fields};
ghost use Rattle.felica_answers.specs.Answer.{row_of, row_text, idm_text};

use felica_command::command::{FelicaStandardCommand as Command, Parsed, Part};
use felica_command::types::{SetParameterEncryptionType, SetParameterPacketType};
use felica_fields::field::{bytes_of, put_field};
use felica_fields::list::{Blocks, Codes};
use felica_put::Output;

// Five matches, each of which gives a column of `row_of`: one match over the commands has 22 arms, past 40 lines, and puts the IDm in 14 of them, the code list in 7.
pub(crate) fn put_fields(out: &mut Output<u8>, payload: &[u8], parsed: Parsed)
    ensures { Puts out.old out.new (row_text parsed.idm (row_of payload.now parsed.challenge parsed.command)) }
{
    let command = parsed.command;
    put_idm_of(out, command, parsed.idm);
    put_codes_of(out, payload, command);
    put_blocks_of(out, payload, command);
    put_fixed_of(out, command, parsed.challenge);
    put_package_of(out, payload, command);
}

#[tactic(auto, unfolding(crate::specs::Answer::row_of), using(felica_put::proofs::Laws::puts_nothing))]
fn put_idm_of(out: &mut Output<u8>, command: Command, idm: [u8; 8])
    ensures { (s ch : List ℕ) → Puts out.old out.new (idm_text (row_of s ch command).idm idm) }
{
    match command {
        Command::Polling { .. }
        | Command::Read { .. }
        | Command::Write { .. }
        | Command::ReadV2 { .. }
        | Command::WriteV2 { .. }
        | Command::GetContainerProperty { .. }
        | Command::GetContainerId
        | Command::RegisterIssueId { .. }
        | Command::RegisterArea { .. }
        | Command::RegisterService { .. }
        | Command::ChangeSystemBlock => {}
        _ => put_field(out, b" idm=", idm.as_slice()),
    }
}

#[tactic(auto, unfolding(crate::specs::Answer::row_of), using(felica_put::proofs::Laws::puts_nothing))]
fn put_codes_of(out: &mut Output<u8>, payload: &[u8], command: Command)
    ensures { (ch : List ℕ) → Puts out.old out.new (row_of payload.now ch command).codes }
{
    match command {
        Command::RequestService { service_codes }
        | Command::RequestServiceV2 { service_codes }
        | Command::ReadWithoutEncryption { service_codes, .. }
        | Command::WriteWithoutEncryption { service_codes, .. } => put_first(
            out,
            payload,
            service_codes,
        ),
        Command::RequestBlockInformation { node_codes }
        | Command::RequestBlockInformationEx { node_codes } => put_first(out, payload, node_codes),
        Command::Authentication1 { areas, services } => put_areas_and_services(
            out, payload, areas, services,
        ),
        Command::GetNodeProperty {
            node_property_type,
            node_codes,
        } => put_byte_and_nodes(
            out,
            payload,
            b" type=",
            node_property_type.to_byte(),
            node_codes,
        ),
        Command::Authentication1V2 {
            operation_parameter,
            nodes,
        } => put_byte_and_nodes(out, payload, b" operation=", operation_parameter, nodes),
        _ => {}
    }
}

#[tactic(auto, unfolding(crate::specs::Answer::row_of), using(felica_put::proofs::Laws::puts_nothing))]
fn put_blocks_of(out: &mut Output<u8>, payload: &[u8], command: Command)
    ensures { (ch : List ℕ) → Puts out.old out.new (row_of payload.now ch command).blocks }
{
    match command {
        Command::ReadWithoutEncryption { block_list, .. }
        | Command::Read { block_list }
        | Command::ReadV2 { block_list } => put_field(
            out,
            b" blocks=",
            Blocks(payload, block_list),
        ),
        Command::WriteWithoutEncryption {
            block_list,
            data,
            ..
        }
        | Command::Write { block_list, data }
        | Command::WriteV2 { block_list, data } => put_blocks_and_data(
            out, payload, block_list, data,
        ),
        _ => {}
    }
}

#[tactic(auto, unfolding(crate::specs::Answer::row_of), using(felica_put::proofs::Laws::puts_nothing))]
fn put_fixed_of(out: &mut Output<u8>, command: Command, challenge: [u8; 16])
    ensures { (s : List ℕ) → Puts out.old out.new (row_of s challenge command).fixed }
{
    match command {
        Command::Polling {
            system_code,
            request_code,
            time_slots,
        } => put_polling(out, system_code, request_code, time_slots),
        Command::SearchServiceCode { service_index } => put_field(out, b" index=", service_index),
        Command::Authentication1 { .. } | Command::Authentication2 => {
            put_field(out, b" challenge=", &challenge[..8])
        }
        Command::RequestCodeList {
            parent_node_code,
            index,
        } => put_parent_and_index(out, parent_node_code.0, index),
        Command::SetParameter {
            encryption_type,
            packet_type,
        } => put_types(out, encryption_type, packet_type),
        Command::GetAreaInformation { node_code } => put_field(out, b" node=", node_code.0),
        Command::GetContainerProperty { property } => put_field(
            out,
            b" property=",
            property.index(),
        ),
        Command::Authentication1V2 { .. } | Command::Authentication2V2 => {
            put_field(out, b" challenge=", challenge.as_slice())
        }
        Command::RegisterIssueId { .. } => put_issue(out, challenge),
        Command::RegisterArea { area_code, .. } => put_field(out, b" node=", area_code.0),
        Command::RegisterService { service_code, .. } => put_field(out, b" node=", service_code.0),
        _ => {}
    }
}

#[tactic(auto, unfolding(crate::specs::Answer::row_of), using(felica_put::proofs::Laws::puts_nothing))]
fn put_package_of(out: &mut Output<u8>, payload: &[u8], command: Command)
    ensures { (ch : List ℕ) → Puts out.old out.new (row_of payload.now ch command).issue_package }
{
    match command {
        Command::RegisterIssueId { package }
        | Command::RegisterArea { package, .. }
        | Command::RegisterService { package, .. } => put_field(
            out,
            b" package=",
            bytes_of(payload, package),
        ),
        _ => {}
    }
}

// The code list, or the first of two. Here and below a part stands beside the payload that it counts from: a command names several parts of one payload, and `Codes` and
// `Blocks` join the two only where one is put.
fn put_first(out: &mut Output<u8>, payload: &[u8], list: Part)
    ensures { Puts out.old out.new (first_field payload.now list) }
{
    put_field(out, b" first=", Codes(payload, list));
}

fn put_areas_and_services(out: &mut Output<u8>, payload: &[u8], areas: Part, services: Part)
    ensures { Puts out.old out.new (first_field payload.now areas ++ second_field payload.now services) }
{
    put_first(out, payload, areas);
    put_field(out, b" second=", Codes(payload, services));
}

fn put_byte_and_nodes(out: &mut Output<u8>, payload: &[u8], name: &[u8], byte: u8, nodes: Part)
    ensures { Puts out.old out.new ((name.now ++ byte_text byte) ++ first_field payload.now nodes) }
{
    put_field(out, name, byte);
    put_first(out, payload, nodes);
}

fn put_blocks_and_data(out: &mut Output<u8>, payload: &[u8], block_list: Part, data: Part)
    ensures { Puts out.old out.new (blocks_field payload.now block_list ++ data_field payload.now «data») }
{
    put_field(out, b" blocks=", Blocks(payload, block_list));
    put_field(out, b" data=", bytes_of(payload, data));
}

fn put_polling(out: &mut Output<u8>, system_code: u16, request_code: u8, time_slots: u8)
    ensures { Puts out.old out.new (word_field " system=" system_code ++ (byte_field " request=" request_code ++ byte_field " slots=" time_slots)) }
{
    put_field(out, b" system=", system_code);
    put_field(out, b" request=", request_code);
    put_field(out, b" slots=", time_slots);
}

fn put_parent_and_index(out: &mut Output<u8>, parent: u16, index: u16)
    ensures { Puts out.old out.new (word_field " parent=" parent ++ word_field " index=" index) }
{
    put_field(out, b" parent=", parent);
    put_field(out, b" index=", index);
}

fn put_types(
    out: &mut Output<u8>,
    encryption_type: SetParameterEncryptionType,
    packet_type: SetParameterPacketType,
)
    ensures { Puts out.old out.new (byte_field " encryption=" (encryption_byte encryption_type) ++ byte_field " packet=" (packet_byte packet_type)) }
{
    put_field(out, b" encryption=", encryption_type.to_byte());
    put_field(out, b" packet=", packet_type.to_byte());
}

// The issue id, then the issue parameter.
fn put_issue(out: &mut Output<u8>, challenge: [u8; 16])
    ensures { Puts out.old out.new (issue_fields challenge) }
{
    put_field(out, b" issue_id=", &challenge[..8]);
    put_field(out, b" issue_parameter=", &challenge[8..]);
}
